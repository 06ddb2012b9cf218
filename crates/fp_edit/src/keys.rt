//! Keys that were met, each once.

ghost use Rattle.std.specs.Prelude.{◌≡◌, ◌∷◌, [], not, IfOk, OnOk};
ghost use Rattle.fp_edit.specs.Changes.{is_among};
ghost use Rattle.fp_edit.specs.Keys.{AreMet};

use std::alloc::{AllocError, Global};
use std::collections::BTreeSet;
use std::marker::Model;

/// Keys that were met, by which it's known of the next one whether it's new.
#[derive(Drop)]
pub struct MetKeys<'a> {
    keys: BTreeSet<&'a str>,
}

impl<'a> Model for MetKeys<'a> {
    ghost use Rattle.std.specs.Prelude.{ℕ, List, map};

    ghost Value = { List (List ℕ) };

    ghost view = { λ a. map (λ q. q.now) a.keys.keys };
}

impl<'a> MetKeys<'a> {
    /// No key was met yet. It takes no memory.
    pub fn new(alloc: Global) -> MetKeys<'a>
        ensures { result ≡ [] }
    {
        MetKeys {
            keys: BTreeSet::new(alloc),
        }
    }

    /// Meets a key by one look-up, and answers whether it's the first time. Where memory is
    /// wanting, the first time has not come.
    pub fn meet(&mut self, key: &'a str) -> Result<bool, AllocError>
        // `Ok`: whether it wasn't met before.
        ensures first { IfOk result (λ first. first ≡ not (is_among key.now self.old)) }
        // `Ok`: this key was met, and those before it; no other.
        ensures met { OnOk result (AreMet self.new (key.now ∷ self.old)) }
    {
        Ok(self.keys.insert(key)?)
    }
}
