//! The token of sealed bodies.

ghost use Rattle.std.specs.Prelude.{◌≡◌, [], ◌∷◌};
ghost use Rattle.fp_journal.specs.Chain.{body_of};

use fp_fronts::{Front, Lists};
use fp_gate::{Gate, Open};
use std::marker::Model;

/// A body as an element of the list of sealed bodies.
#[derive(Drop)]
pub struct Body {
    bytes: Vec<u8>,
}

impl Model for Body {
    ghost use Rattle.std.specs.Coded.{coded_list, coded_ℕ};
    ghost use Rattle.std.specs.Prelude.{List, ℕ};

    ghost Value = { List ℕ };

    ghost coded = { coded_list coded_ℕ };

    ghost view = { λ b. b.bytes.items };
}

// What a frame's bytes add to the list.
pub(crate) struct InFrame;

impl Lists<Vec<u8>, Body> for InFrame {
    ghost items = { λ v. body_of v.items ∷ [] };
}

/// That a journal had sealed these bodies. Only an open gate makes one.
#[derive(Drop)]
pub struct Sealed {
    front: Front<Body>,
}

impl Model for Sealed {
    ghost use Rattle.fp_journal.specs.State.{SealedBodies};

    ghost Value = { SealedBodies };

    ghost view = { λ s. record { name = s.front.name; bodies = s.front.log } };
}

impl Sealed {
    pub(crate) fn new(gate: Gate<Open>, front: Front<Body>) -> Sealed
        ensures { (result.name ≡ front.name) × (result.bodies ≡ front.log) }
    {
        let _ = gate;
        Sealed { front }
    }
}
