//! What a relay shows, as its loops share it.

ghost use Rattle.std.specs.Prelude.{◌≡◌, ◌≤◌, [], ◌∷◌, length};
ghost use Rattle.fp_stream.specs.declared.head.TheConstants.{MOST_BODY};

use fp_fronts::Lists;
use fp_news::News;
use fp_shown::Shown;
use std::marker::Model;

/// A set that is shown, whose document a frame can carry.
#[derive(Drop)]
pub struct Set {
    shown: Shown,
}

impl Model for Set {
    ghost use Rattle.std.specs.Prelude.{◌≤◌, length};
    ghost use Rattle.fp_stream.specs.Frames.{Snapshot};
    ghost use Rattle.fp_stream.specs.declared.head.TheConstants.{MOST_BODY};

    ghost Value = { Snapshot };

    ghost view = { λ s. s.shown };

    ghost invariant = { λ s. length s.shown.document ≤ MOST_BODY };
}

impl Set {
    /// Of what is shown.
    pub fn of(shown: Shown) -> Set
        requires { length shown.document ≤ MOST_BODY }
        ensures { result ≡ shown }
    {
        Set { shown }
    }

    /// What is shown.
    pub fn shown(&self) -> &Shown
        ensures { result.now ≡ self.now }
    {
        &self.shown
    }
}

impl News for Set {
    ghost shows = { λ s. s };

    fn revision(&self) -> u64 {
        self.shown.revision()
    }

    fn document(&self) -> &[u8] {
        self.shown.document()
    }
}

/// A set alone, as what is behind others.
pub struct OfSet;

impl Lists<Set, Set> for OfSet {
    ghost items = { λ set. set ∷ [] };
}
