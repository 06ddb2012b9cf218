//! Which calls a disk was asked to make, and how many of them failed.

ghost use Rattle.std.specs.Prelude.{◌≡◌, ◌+◌, [], ◌∷◌, ◌++◌};

use crate::disk::DiskFault;
use fp_fronts::{Count, Growing, Lists};
use std::marker::Model;

/// What a call of a disk asks for.
#[derive(Clone, Copy, Debug)]
pub enum CallKind {
    /// How many bytes there are.
    Length,
    /// Bytes from a place on.
    Read,
    /// That bytes be put at a place.
    Write,
    /// That a crash leave what a read gives.
    Sync,
}

struct OfOne;

impl Lists<CallKind, CallKind> for OfOne {
    ghost items = { λ kind. kind ∷ [] };
}

/// The calls so far in order, and how many failed. It is there in proofs alone and takes no bytes.
#[derive(Drop)]
pub struct History {
    calls: Growing<CallKind>,
    failures: Count,
}

impl Model for History {
    ghost use Rattle.fp_disk.specs.History.{Calls};

    ghost Value = { Calls };

    ghost view = { λ h. record { made = h.calls.log; faults = h.failures } };
}

impl History {
    /// No call was made yet.
    pub(crate) fn new() -> History
        ensures { result ≡ record { made = []; faults = 0 } }
    {
        History {
            calls: Growing::new().0,
            failures: Count::new(),
        }
    }

    /// One call more.
    pub(crate) fn add(&mut self, kind: CallKind)
        ensures { self.new ≡ record {
          made = self.old.made ++ kind ∷ [];
          faults = self.old.faults;
        } }
    {
        self.calls.lengthen::<CallKind, OfOne>(&kind);
    }

    /// One failure more.
    pub(crate) fn fault(&mut self) -> DiskFault
        ensures { self.new ≡ record { made = self.old.made; faults = self.old.faults + 1 } }
    {
        self.failures.increment();
        DiskFault::Device
    }
}
