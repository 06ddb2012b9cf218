//! What the slots keep for the next call.

ghost use Rattle.std.specs.Prelude.{◌≡◌};
ghost use Rattle.fp_slots.specs.State.{step_of};

use crate::slots::Step;
use fp_disk::{Disk, Synced};
use fp_gate::{Gate, Written};

/// A step, with what the call that takes it spends.
#[derive(Drop)]
pub(crate) enum Held<D: Disk> {
    Begin,
    Close,
    SyncClose,
    Part,
    Tail,
    SyncBody,
    Open(Synced<D>),
    Opening,
    SyncOpen(Gate<Written>),
}

impl<D: Disk> Held<D> {
    pub(crate) fn step(&self) -> Step
        ensures { result ≡ step_of self.now }
    {
        match self {
            Held::Begin => Step::Begin,
            Held::Close => Step::Close,
            Held::SyncClose => Step::SyncClose,
            Held::Part => Step::Part,
            Held::Tail => Step::Tail,
            Held::SyncBody => Step::SyncBody,
            Held::Open(_) | Held::Opening => Step::Open,
            Held::SyncOpen(_) => Step::SyncOpen,
        }
    }
}
