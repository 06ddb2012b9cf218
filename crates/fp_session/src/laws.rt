//! Laws of sessions.

ghost use Rattle.std.specs.Prelude.{◌≡◌, ◌⊎◌, ◌<◌, IfOk, IfErr};
ghost use Rattle.fp_edit.specs.Flags.{State};
ghost use Rattle.fp_layout.specs.declared.fault.OpenFault.TheVariants.{Device, Memory};
ghost use Rattle.fp_desk.specs.Desk.{settled_revision};
ghost use Rattle.fp_committer.specs.Kept.{IsAfterFirst};
ghost use Rattle.fp_session.specs.Session.{IsReady, disk_of, flags_of};

use crate::DiskSession;
use fp_disk::Disk;
use fp_layout::OpenFault;
use std::alloc::Global;

/// Law: closing a session that keeps all its edits and opening its disk gives the same flags,
/// unless the device fails or memory runs out.
pub fn closes_and_opens<D: Disk>(
    alloc: Global,
    session: DiskSession<D>,
) -> Result<DiskSession<D>, (OpenFault, D)>
    // All edits are kept: no flags may stand but the session's.
    requires kept { (flags : State)
        → IsAfterFirst session.desk (settled_revision session.desk) flags
        → flags ≡ flags_of session }
    // H: at `Ok` the flags are those of the session that was closed, at the same revision.
    ensures same { D.honest (disk_of session) → IfOk result (λ s. flags_of s ≡ flags_of session) }
    // `Ok`: it takes edits.
    ensures ready { IfOk result (λ s. IsReady D.Disk s) }
    // H: a fault is `Device` or `Memory`, and none of the bytes.
    ensures refused { D.honest (disk_of session) →
        IfErr result (λ e. (e.0 ≡ Device) ⊎ (e.0 ≡ Memory)) }
    // `Device` only where the disk's count of failures rose.
    ensures cause { IfErr result (λ e. e.0 ≡ Device →
        D.faults (disk_of session) < D.faults e.1) }
{
    DiskSession::open(alloc, session.into_disk())
}
