//! Laws of what opening refuses: which fault bytes have, and where.

ghost use Rattle.fp_recovery.specs.Exact.{HaveFaultsWithin, HaveOneFault, StandOrHaveFault};
ghost use Rattle.fp_recovery.specs.Exact.{StandingHaveNoFault};

/// No bytes have two faults, nor one at two places.
pub fn bytes_have_one_fault()
    ensures { HaveOneFault }
{}

/// Bytes that stand for a set have no fault.
pub fn standing_bytes_have_no_fault()
    ensures { StandingHaveNoFault }
{}

/// A place of damage lies within the bytes, or at their end.
pub fn faults_lie_within()
    ensures { HaveFaultsWithin }
{}

/// Whatever the bytes are, they stand for a set or have a fault.
pub fn bytes_stand_or_have_a_fault()
    ensures { StandOrHaveFault }
{}
