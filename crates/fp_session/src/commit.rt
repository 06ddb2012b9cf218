//! Batches of what waits, drawn, sealed and settled by the halves of a committer.

ghost use Rattle.std.specs.Prelude.{◌≡◌, ◌≢◌, ◌⊎◌, ◌<◌, [], length, IfErr, OnOk, OnErr};
ghost use Rattle.fp_committer.specs.Course.{GoesWell};
ghost use Rattle.fp_committer.specs.Works.{BreaksOff};
ghost use Rattle.fp_committer.specs.declared.fault.CommitFault.TheVariants.{Memory, StoreFailed};
ghost use Rattle.fp_session.specs.Session.{AreAtRest, AreOne, IsInStep, LacksRoomFor, StaysAhead};

use crate::CommitFault;
use fp_committer::{DeskHalf, StoreHalf};
use fp_disk::Disk;

// Draws the longest first part of what waits that makes a batch, seals and settles it.
fn commit<D: Disk>(desk: &mut DeskHalf, store: &mut StoreHalf<D>) -> Result<(), CommitFault>
    requires one { AreOne desk.old store.old }
    requires rest { AreAtRest desk.old store.old }
    requires waits { desk.old.desk.waiting ≢ [] }
    ensures stays { StaysAhead D.Disk desk.old store.old desk.new store.new }
    ensures rest { OnOk result (AreAtRest desk.new store.new) }
    ensures fewer { OnOk result (length desk.new.desk.waiting < length desk.old.desk.waiting) }
    ensures well { OnOk result (GoesWell D.Disk store.old.store store.new.store) }
    ensures cause { IfErr result (λ f. f ≡ StoreFailed
        → LacksRoomFor D.Disk desk.old.desk store.new.store.disk
        ⊎ (D.faults store.old.store.disk < D.faults store.new.store.disk)) }
    ensures memory { IfErr result (λ f. f ≡ Memory
        → D.faults store.new.store.disk ≡ D.faults store.old.store.disk) }
    ensures called { OnErr result (BreaksOff D.Disk store.old.store store.new.store) }
{
    store.rest();
    let Ok(drawn) = desk.draw(store) else {
        return Err(CommitFault::Memory);
    };
    let Some(_) = drawn else { unreachable!() };
    store.rest();
    store.seal()?;
    let Ok(settled) = desk.settle(store) else {
        return Err(CommitFault::Memory);
    };
    let Some(_) = settled else { unreachable!() };
    store.rest();
    Ok(())
}

/// Draws, seals and settles all that waits, in batches that are as long as they may be.
pub fn commit_all<D: Disk>(desk: &mut DeskHalf, store: &mut StoreHalf<D>) -> Result<(), CommitFault>
    requires one { AreOne desk.old store.old }
    requires rest { AreAtRest desk.old store.old }
    ensures stays { StaysAhead D.Disk desk.old store.old desk.new store.new }
    ensures rest { OnOk result (AreAtRest desk.new store.new) }
    ensures none { OnOk result (desk.new.desk.waiting ≡ []) }
    ensures in_step { OnOk result (IsInStep D.Disk store.new.store desk.new.desk) }
    ensures well { OnOk result (GoesWell D.Disk store.old.store store.new.store) }
    ensures cause { IfErr result (λ f. f ≡ StoreFailed
        → LacksRoomFor D.Disk desk.old.desk store.new.store.disk
        ⊎ (D.faults store.old.store.disk < D.faults store.new.store.disk)) }
    ensures memory { IfErr result (λ f. f ≡ Memory
        → D.faults store.new.store.disk ≡ D.faults store.old.store.disk) }
    ensures called { OnErr result (BreaksOff D.Disk store.old.store store.new.store) }
{
    // What a crash leaves is known only where it is asked.
    store.rest();
    while desk.desk().is_waiting() {
        commit(desk, store)?;
    }
    store.rest();
    Ok(())
}
