//! A body in its frame, as one write puts it down.

ghost use Rattle.std.specs.Prelude.{◌≡◌, ◌<◌, ◌+◌, ◌^◌, length, IfOk};
ghost use Rattle.fp_journal.specs.Chain.{with_gate};
ghost use Rattle.fp_journal.specs.declared.framed.TheConstants.{FRAME};

use std::alloc::{AllocError, Global};
use std::marker::Model;

/// How many bytes the length of a body takes.
pub const LENGTH_FIELD: u64 = 4;

/// How far behind its gate's place a body begins: behind the gate and its length.
pub const BODY_PLACE: u64 = 1 + LENGTH_FIELD;

/// What a body takes of a slot beside its own bytes: its gate, its length, and the closed gate
/// behind it.
pub const FRAME: u64 = BODY_PLACE + 1;

/// A body behind its length and before a closed gate, as one write puts it down.
#[derive(Drop)]
pub struct Framed {
    bytes: Vec<u8>,
}

impl Model for Framed {
    ghost use Rattle.std.specs.Coded.{coded_list, coded_ℕ};
    ghost use Rattle.std.specs.Prelude.{◌≡◌, ◌<◌, ◌^◌, List, ℕ, length};
    ghost use Rattle.fp_journal.specs.Chain.{with_gate, body_of};

    ghost Value = { List ℕ };

    ghost coded = { coded_list coded_ℕ };

    ghost view = { λ f. body_of f.bytes.items };

    ghost invariant = { λ f. (f.bytes.items ≡ with_gate (body_of f.bytes.items))
        × (length (body_of f.bytes.items) < 2 ^ 32) };
}

impl Framed {
    /// Takes all the memory that writing this body costs, so that no later call needs any.
    pub fn new(alloc: Global, body: &[u8]) -> Result<Framed, AllocError>
        // The body has fewer than 2^32 bytes.
        requires { length body.now < 2 ^ 32 }
        ensures { IfOk result (λ f. f ≡ body.now) }
    {
        let len = body.len() as u32;
        let mut bytes = Vec::with_capacity(alloc, body.len() + 5)?;
        bytes.extend_from_slice(&len.to_be_bytes())?;
        bytes.extend_from_slice(body)?;
        bytes.push(0)?;
        Ok(Framed { bytes })
    }

    /// How many bytes of a slot the body takes, which are its own and 6, with its own gate in front
    /// of its length and the closed gate behind it.
    pub fn cost(&self) -> u64
        ensures { result ≡ length self.now + FRAME }
    {
        self.bytes.len() as u64 + 1
    }

    /// The bytes of its write: its length, the body, and a closed gate.
    pub fn as_slice(&self) -> &[u8]
        ensures { result.now ≡ with_gate self.now }
    {
        self.bytes.as_slice()
    }

    pub(crate) fn into_bytes(self) -> Vec<u8>
        ensures bytes { result.items ≡ with_gate self }
        ensures short { length self < 2 ^ 32 }
    {
        let Framed { bytes } = self;
        bytes
    }
}
