//! What a journal keeps for its next call.

ghost use Rattle.std.specs.Prelude.{◌≡◌};
ghost use Rattle.fp_journal.specs.State.{begun_of, phase_of};
ghost use Rattle.fp_journal.specs.declared.held.Held.TheVariants as held;

use crate::journal::Phase;
use fp_disk::{Disk, Synced};
use fp_gate::{Gate, Written};

/// A phase, with what the next call spends.
#[derive(Drop)]
pub(crate) enum Held<D: Disk> {
    Idle,
    Staged,
    BodySynced(Synced<D>),
    GateOpened(Gate<Written>),
    // Whether the gate in front of the body may have been written.
    Failed(bool),
}

impl<D: Disk> Held<D> {
    pub(crate) fn phase(&self) -> Phase
        ensures { result ≡ phase_of self.now }
    {
        match self {
            Held::Idle => Phase::Idle,
            Held::Staged => Phase::Staged,
            Held::BodySynced(_) => Phase::BodySynced,
            Held::GateOpened(_) => Phase::GateOpened,
            Held::Failed(_) => Phase::Failed,
        }
    }

    // What is left of it where a call fails that has nothing to do with the gate.
    pub(crate) fn failed(&self) -> Held<D>
        ensures { result ≡ held.Failed (begun_of self.now) }
    {
        match self {
            Held::Idle | Held::Staged | Held::BodySynced(_) => Held::Failed(false),
            Held::GateOpened(_) => Held::Failed(true),
            Held::Failed(begun) => Held::Failed(*begun),
        }
    }
}
