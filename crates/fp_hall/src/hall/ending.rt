//! How a hall ends: it is closed, and then ended; or sealing breaks off.

ghost use Rattle.std.specs.Prelude.{◌≡◌, [], true};
ghost use Rattle.fp_hall.specs.Hall.{IsStoreOf, SealsNoMore};

use super::{AllSettled, Closer, Hall};
use crate::naming::Naming;
use fp_committer::StoreHalf;
use fp_disk::Disk;
use std::sync::Wait;

impl<K: Naming, R: Wait + Drop> Hall<K, R> {
    /// No edit is taken any more, and the plane is to stop. What waits goes on. It wants what was
    /// made with the hall, and uses it up.
    pub fn close(&mut self, _closer: Closer<K>)
        ensures { self.new ≡ record self.old {
          desk = record self.old.desk { stopped = true };
          closing = true;
        } }
    {
        self.desk.stop();
        self.is_closing = true;
    }

    /// No batch is drawn any more, since nothing waits. So the flusher ends a plane that is to
    /// stop.
    pub fn end(&mut self) -> AllSettled
        // The plane is to stop.
        requires closing { self.old.closing ≡ true }
        // Nothing is drawn, and nothing waits.
        requires settled { (self.old.desk.drawn ≡ []) × (self.old.desk.waiting ≡ []) }
        ensures { self.new ≡ record self.old { ended = true } }
    {
        self.has_ended = true;
        AllSettled { of: () }
    }

    /// No batch is drawn any more, since sealing by this half broke off. No edit is taken any more.
    pub fn break_off<D: Disk>(&mut self, _half: &StoreHalf<D>)
        // The half is the store's of the committer that the hall is of,
        requires ours { IsStoreOf K.store K.desk_lists K.store_lists _half.now }
        // and it seals nothing any more.
        requires cause { SealsNoMore D.Disk _half.now }
        ensures { self.new ≡ record self.old {
          desk = record self.old.desk { stopped = true };
          failed = true;
          ended = true;
        } }
    {
        self.desk.stop();
        self.has_failed = true;
        self.has_ended = true;
    }
}
