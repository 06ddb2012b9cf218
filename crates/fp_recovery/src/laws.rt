//! Laws of what bytes stand for.

ghost use Rattle.fp_recovery.specs.Laws.{StandsForOne};

/// No bytes stand for two sets, nor for one at two revisions.
pub fn bytes_stand_for_one()
    ensures { StandsForOne }
{}
