//! What waits to be kept, and what was put down for that.

ghost use Rattle.std.specs.Prelude.{◌≡◌, ◌++◌, ◌∷◌, [], Some, None};
ghost use Rattle.std.specs.Arc.{arc_value};

use crate::set::{OfSet, Set};
use fp_fronts::Growing;
use std::alloc::Global;
use std::marker::Model;
use std::sync::Arc;

/// The sets that were put down so far, in turn, in proofs alone: `OnShelf::put` alone lengthens it.
#[derive(Drop)]
pub struct PutDown {
    sets: Growing<Set>,
}

impl Model for PutDown {
    ghost use Rattle.std.specs.Prelude.{List};
    ghost use Rattle.fp_stream.specs.Frames.{Snapshot};

    ghost Value = { List Snapshot };

    ghost view = { λ p. p.sets.log };
}

impl PutDown {
    /// None yet.
    pub fn new() -> PutDown
        ensures { result ≡ [] }
    {
        PutDown {
            sets: Growing::new().0,
        }
    }
}

/// The set that waits to be kept, and whether another may come.
#[derive(Drop)]
pub struct OnShelf {
    pub set: Option<Arc<Set, Global>>,
    pub is_closed: bool,
}

impl OnShelf {
    /// None waits.
    pub fn new() -> OnShelf
        ensures { result.set ≡ None }
    {
        OnShelf {
            set: None,
            is_closed: false,
        }
    }

    /// Puts a set down, in place of an older one that wasn't kept yet.
    pub fn put(&mut self, set: Arc<Set, Global>, put: &mut PutDown)
        // This one waits from now on.
        ensures waits { self.new.set ≡ Some set }
        // It is put down behind what was.
        ensures put { put.new ≡ put.old ++ arc_value set ∷ [] }
    {
        put.sets.lengthen::<Set, OfSet>(&set);
        self.set = Some(set);
    }
}
