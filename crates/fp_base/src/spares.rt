//! Vectors in which lists are gathered one after another.

ghost use Rattle.std.specs.Prelude.{◌≡◌, []};

use bumpalo::Bump;
use std::alloc::Global;

// A longer vector isn't kept: what a text takes once isn't held until its end.
const MOST_KEPT: usize = 1_024;

// Vectors that were used, and will be again: so few lists of a text want memory of their own while
// they are gathered.
#[derive(Drop)]
pub(crate) struct Spares<'a, T: Copy> {
    kept: Vec<Vec<T>, &'a Bump>,
}

impl<'a, T: Copy> Spares<'a, T> {
    pub(crate) fn new(arena: &'a Bump) -> Spares<'a, T> {
        Spares {
            kept: Vec::new(arena),
        }
    }

    // An empty vector.
    #[inline(always)]
    pub(crate) fn take(&mut self, alloc: Global) -> Vec<T>
        ensures { result.items ≡ [] }
    {
        match self.kept.pop() {
            Some(mut emptied) => {
                emptied.clear();
                emptied
            }
            None => Vec::new(alloc),
        }
    }

    // Keeps a vector for the next list. It is dropped where there is no memory to keep it.
    #[inline(always)]
    pub(crate) fn keep(&mut self, used: Vec<T>) {
        if used.capacity() <= MOST_KEPT && self.kept.reserve(1).is_ok() {
            self.kept.push_reserved(used);
        }
    }
}
