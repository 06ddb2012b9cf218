//! Faults of records, as those of the bodies that they are.

ghost use Rattle.std.specs.Prelude.{◌≡◌};
ghost use Rattle.fp_recovery.specs.Refusals.{body_fault};

use fp_journal::BodyFault;
use fp_record::RecordFault;

/// The same fault, of a body.
pub fn fault_of(fault: RecordFault) -> BodyFault
    ensures { result ≡ body_fault fault }
{
    match fault {
        RecordFault::BadRecord { at } => BodyFault::BadBody { at: at as u64 },
        RecordFault::Memory => BodyFault::Memory,
    }
}
