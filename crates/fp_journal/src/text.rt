//! A text that is there in proofs alone.

ghost use Rattle.std.specs.Prelude.{◌≡◌, ◌∷◌, ◌++◌};
ghost use Rattle.fp_gate.specs.declared.gate.TheConstants.{OPEN};
ghost use Rattle.fp_journal.specs.Chain.{with_length};

use fp_fronts::{Growing, Lists};
use std::marker::Model;

struct Bytes;

impl<'a> Lists<&'a [u8], u8> for Bytes {
    ghost items = { λ b. b.now };
}

struct Linked;

impl<'a> Lists<&'a [u8], u8> for Linked {
    ghost items = { λ b. OPEN ∷ with_length b.now };
}

/// The text that stands in a slot, as far as it was read. It is there in proofs alone and takes no
/// bytes.
#[derive(Drop)]
pub struct Text {
    bytes: Growing<u8>,
}

impl Model for Text {
    ghost use Rattle.std.specs.Coded.{coded_list, coded_ℕ};
    ghost use Rattle.std.specs.Prelude.{List, ℕ};

    ghost Value = { List ℕ };

    ghost coded = { coded_list coded_ℕ };

    ghost view = { λ t. t.bytes.log };
}

impl Text {
    /// These bytes, as a text that is there in proofs alone and costs nothing.
    pub fn new(bytes: &[u8]) -> Text
        ensures { result ≡ bytes.now }
    {
        let mut text = Text {
            bytes: Growing::new().0,
        };
        text.push(bytes);
        text
    }

    /// Puts these bytes behind it.
    pub fn push(&mut self, more: &[u8])
        ensures { self.new ≡ self.old ++ more.now }
    {
        self.bytes.lengthen::<&[u8], Bytes>(&more);
    }

    /// Puts a body behind it, with its length and an open gate.
    pub fn push_body(&mut self, body: &[u8])
        ensures { self.new ≡ self.old ++ OPEN ∷ with_length body.now }
    {
        self.bytes.lengthen::<&[u8], Linked>(&body);
    }
}
