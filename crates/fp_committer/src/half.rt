//! What two halves that are held apart know of one another.

ghost use Rattle.std.specs.Prelude.{◌≡◌, ◌++◌, []};
ghost use Rattle.fp_committer.specs.Halves.{ArePair};

use fp_desk::Desk;
use fp_edit::Edit;
use fp_fronts::{Front, Growing, Lists};
use std::marker::Model;

/// A change as an element of the lists.
#[derive(Drop)]
pub(crate) struct Changed {
    edit: Edit,
}

impl Model for Changed {
    ghost use Rattle.fp_edit.specs.Edits.{Change};
    ghost use Rattle.fp_edit.specs.Following.{change_of};
    ghost use Rattle.fp_group_commit.specs.Changes.{coded_change};

    ghost Value = { Change };

    ghost coded = { coded_change };

    ghost view = { λ c. change_of c.edit };
}

// What a desk has drawn.
struct DrawnBy;

impl Lists<Desk, Changed> for DrawnBy {
    ghost items = { λ d. d.drawn };
}

// What a desk settled last.
struct SettledBy;

impl Lists<Desk, Changed> for SettledBy {
    ghost items = { λ d. d.last };
}

/// A list of all that was drawn and one of what is settled, and beginnings of the other half's lists.
/// It has no bytes.
#[derive(Drop)]
pub(crate) struct Half {
    all: Growing<Changed>,
    settled: Growing<Changed>,
    all_there: Front<Changed>,
    settled_there: Front<Changed>,
}

impl Model for Half {
    ghost use Rattle.std.specs.Coded.{codes};
    ghost use Rattle.std.specs.Prelude.{◌≡◌};
    ghost use Rattle.fp_group_commit.specs.Changes.{coded_change};
    ghost use Rattle.fp_committer.specs.Halves.{HalfState};

    ghost Value = { HalfState };

    ghost coded = { Prim.hlevel (codes, coded_change) };

    ghost view = { λ h. record {
      own = record { all = h.all.name; settled = h.settled.name };
      there = record { all = h.all_there.name; settled = h.settled_there.name };
      all = h.all.log;
      settled = h.settled.log;
    } };

    ghost invariant = { λ h. (h.all_there.log ≡ h.all.log)
        × (h.settled_there.log ≡ h.settled.log) };
}

impl Half {
    /// Two halves, of which nothing was drawn.
    pub fn pair() -> (Half, Half)
        ensures pair { ArePair result.0 result.1 }
        ensures here { (result.0.all ≡ []) × (result.0.settled ≡ []) }
        ensures there { (result.1.all ≡ []) × (result.1.settled ≡ []) }
    {
        let (all, all_front) = Growing::new();
        let (settled, settled_front) = Growing::new();
        let (other_all, other_all_front) = Growing::new();
        let (other_settled, other_settled_front) = Growing::new();
        let here = Half {
            all,
            settled,
            all_there: other_all_front,
            settled_there: other_settled_front,
        };
        let there = Half {
            all: other_all,
            settled: other_settled,
            all_there: all_front,
            settled_there: settled_front,
        };
        (here, there)
    }

    /// Shows that both list the same.
    pub fn agrees(&self, there: &Half)
        requires { ArePair self.now there.now }
        ensures all { there.now.all ≡ self.now.all }
        ensures settled { there.now.settled ≡ self.now.settled }
    {
        self.all.confirm(&there.all_there);
        self.settled.confirm(&there.settled_there);
        there.all.confirm(&self.all_there);
        there.settled.confirm(&self.settled_there);
    }

    /// Lists in both what the desk has drawn now.
    pub fn draw(&mut self, there: &mut Half, desk: &Desk)
        requires { ArePair self.old there.old }
        ensures here { self.new ≡ record self.old { all = self.old.all ++ desk.now.drawn } }
        ensures other { there.new ≡ record there.old { all = there.old.all ++ desk.now.drawn } }
    {
        self.agrees(there);
        there.all_there = self.all.lengthen::<Desk, DrawnBy>(desk);
        self.all_there = there.all.lengthen::<Desk, DrawnBy>(desk);
    }

    /// Lists in both what the desk settled last.
    pub fn settle(&mut self, there: &mut Half, desk: &Desk)
        requires { ArePair self.old there.old }
        ensures here { self.new
            ≡ record self.old { settled = self.old.settled ++ desk.now.last } }
        ensures other { there.new
            ≡ record there.old { settled = there.old.settled ++ desk.now.last } }
    {
        self.agrees(there);
        there.settled_there = self.settled.lengthen::<Desk, SettledBy>(desk);
        self.settled_there = there.settled.lengthen::<Desk, SettledBy>(desk);
    }
}
