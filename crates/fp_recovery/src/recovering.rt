//! What a disk stands for, read and left as it is.

ghost use Rattle.std.specs.Prelude.{◌≡◌, [], ◌∷◌, IfOk, IfErr};
ghost use Rattle.fp_disk.specs.declared.history.CallKind.TheVariants.{Length};
ghost use Rattle.fp_layout.specs.Opens.{Opens};
ghost use Rattle.fp_recovery.specs.Refusals.{RefusesBytes};
ghost use Rattle.fp_recovery.specs.Recovered.{FindsEach, StandsAt, TellsEach};

use crate::restoring::Replayer;
use fp_disk::Disk;
use fp_edit::FlagSet;
use fp_layout::{OpenFault, Place, read_disk};
use std::alloc::Global;

/// The set that a disk stands for, and the place where it goes on; or the first fault of its bytes.
/// No more is read than that takes, nothing is synced and nothing written.
pub fn recover<D: Disk>(alloc: Global, disk: &mut D) -> Result<(FlagSet, Place), OpenFault>
    // H: `Ok`: the bytes stand for the set, by the slot that is told, whose closed gate is at the
    // place that is told.
    ensures stands { D.honest disk.old →
        IfOk result (λ r. StandsAt (D.bytes disk.old) r.0 r.1) }
    // H: `Err`: the first fault of the bytes, with its place, or `Device` or `Memory`.
    ensures fault { D.honest disk.old → IfErr result (RefusesBytes (D.bytes disk.old)) }

    // H: if the bytes stand for a set, it is the answer, unless the device or memory is wanting.
    ensures found { D.honest disk.old → FindsEach (D.bytes disk.old) result }
    // H: if the bytes have a fault, it is the answer, unless the device or memory is wanting.
    ensures told { D.honest disk.old → TellsEach (D.bytes disk.old) result }
    // H: what is pending stays.
    ensures unsynced { D.honest disk.old → D.unsynced disk.new ≡ D.unsynced disk.old }
    // What it leaves of the disk; its calls are length, and behind it reads.
    ensures kept { Opens D.Disk (Length ∷ []) disk.old disk.new result }
{
    let mut restoring = Replayer::new(alloc);
    let place = read_disk(alloc, disk, &mut restoring)?;
    Ok((restoring.into_set(), place))
}
