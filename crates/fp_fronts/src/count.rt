//! A number in proofs alone that only grows.

ghost use Rattle.std.specs.Prelude.{◌≡◌, ◌+◌, ℕ, [], ◌∷◌, length};

use crate::growing::{Growing, Lists};
use std::marker::Model;

struct One;

impl Lists<u8, u8> for One {
    ghost items = { λ v. v ∷ [] };
}

/// A number that only grows. It is there in proofs alone, so it takes no bytes and can't overflow.
#[derive(Drop)]
pub struct Count {
    steps: Growing<u8>,
}

impl Model for Count {
    ghost Value = { ℕ };

    ghost view = { λ c. length c.steps.log };
}

impl Count {
    /// Nothing was counted yet: 0.
    pub fn new() -> Count
        ensures { result ≡ 0 }
    {
        Count {
            steps: Growing::new().0,
        }
    }

    /// Counts one more. What counts failures stands on it, since it can't overflow.
    pub fn increment(&mut self)
        ensures { self.new ≡ self.old + 1 }
    {
        self.steps.lengthen::<u8, One>(&0);
    }
}
