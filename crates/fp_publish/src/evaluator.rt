//! Evaluators: who reads what is published.

ghost use Rattle.std.specs.Prelude.{◌≡◌, Some, None, IfSome, MatchOption, OnOk, OnErr};
ghost use Rattle.left_right.specs.Sides.{view};
ghost use Rattle.fp_publish.specs.Evaluator.{KnowsStore};
ghost use Rattle.fp_publish.specs.Fronts.{Begins};

use crate::page::Page;
use crate::published::View;
use crate::rule::{OnlyGrows, Sees};
use crate::shown::Shown;
use fp_group_commit::Part;
use left_right::reader::{Reader, Reading};
use std::marker::Model;
use std::mem;

/// The board is gone. No clause keeps a body from answering this at any time.
#[derive(Clone, Copy, Debug)]
pub struct Closed;

// The reader outside, or inside with what it reads.
pub(crate) enum Held {
    Out(Reader<Page, Option<Part>, OnlyGrows>),
    In(Reading<Page, Option<Part>, OnlyGrows>),
    Gone,
}

impl Held {
    fn end(self) {
        match self {
            Held::Out(_reader) => {}
            Held::In(reading) => {
                reading.leave();
            }
            Held::Gone => {}
        }
    }
}

/// One evaluator. It keeps the most that it saw or learnt, and no view of it is ever below that.
pub struct Evaluator {
    held: Held,
    known: Shown,
}

impl Model for Evaluator {
    ghost use Rattle.std.specs.Coded.{codes};
    ghost use Rattle.fp_edit.specs.Flags.{coded_state};
    ghost use Rattle.fp_group_commit.specs.Changes.{coded_change};
    ghost use Rattle.fp_publish.specs.Evaluator.{EvaluatorState};

    ghost Value = { EvaluatorState };

    ghost coded = { Prim.hlevel (codes, coded_state, coded_change) };

    ghost use Rattle.fp_publish.specs.Evaluator.{IsSeated, lent_of};

    ghost view = { λ e. record { known = e.known; lent = lent_of e.held } };

    ghost invariant = { λ e. IsSeated e.held e.known.store };
}

impl Drop for Evaluator {
    fn drop(self) {
        let Self { held, known: _ } = self;
        held.end();
    }
}

impl Evaluator {
    pub(crate) fn new(reader: Reader<Page, Option<Part>, OnlyGrows>, known: Shown) -> Evaluator
        requires { view reader.place ≡ Some known }
        ensures { result ≡ record { known = known; lent = None } }
    {
        Evaluator {
            held: Held::Out(reader),
            known,
        }
    }

    // The reader, outside.
    fn take(&mut self) -> Option<Reader<Page, Option<Part>, OnlyGrows>>
        ensures rested { self.new ≡ record self.old { lent = None } }
        ensures seat { IfSome result (λ r. KnowsStore (view r.place) self.old.known.store) }
    {
        match mem::replace(&mut self.held, Held::Gone) {
            Held::Out(reader) => Some(reader),
            Held::In(reading) => Some(reading.leave()),
            Held::Gone => None,
        }
    }

    fn put(&mut self, reader: Reader<Page, Option<Part>, OnlyGrows>)
        requires { KnowsStore (view reader.place) self.old.known.store }
        ensures { self.new ≡ record self.old { lent = None } }
    {
        mem::replace(&mut self.held, Held::Out(reader)).end();
    }

    /// Takes what is published now, in place of what was taken before. It waits for nobody and
    /// takes no memory.
    pub fn enter(&mut self) -> Result<(), Closed>
        // What is known now goes on from all that this evaluator took and learnt before.
        ensures goes_on { Begins self.old.known self.new.known }
        // `Ok`: it is lent what it knows now.
        ensures entered { OnOk result (self.new.lent ≡ Some self.new.known) }
        // `Closed`: it is lent nothing, and knows what it knew.
        ensures closed { OnErr result (self.new ≡ record self.old { lent = None }) }
    {
        let Some(rested) = self.take() else {
            return Err(Closed);
        };
        let reading = match rested.enter_as::<Sees>() {
            Ok(reading) => reading,
            Err(rested) => {
                self.put(rested);
                return Err(Closed);
            }
        };
        let seen = reading.get().shown();
        if seen.is_behind(&self.known) {
            self.put(reading.leave());
            return Err(Closed);
        }
        self.known = seen;
        mem::replace(&mut self.held, Held::In(reading)).end();
        Ok(())
    }

    /// Lends what was taken, until the evaluator rests. It waits for nobody and takes no memory.
    pub fn view(&self) -> Option<View<'_>>
        // `Some` exactly where something was taken and isn't let go of, and it is that.
        ensures { MatchOption result (self.now.lent ≡ None) (λ v. self.now.lent ≡ Some v) }
    {
        match &self.held {
            Held::In(reading) => Some(View::of(reading.get())),
            _ => None,
        }
    }

    /// Lets go of what was taken, and knows it still. A publication waits for each evaluator that
    /// doesn't, so one rests as soon as its reply is made.
    pub fn rest(&mut self)
        ensures { self.new ≡ record self.old { lent = None } }
    {
        if let Some(reader) = self.take() {
            self.put(reader);
        }
    }

    /// Takes no less than this from now on, such as what its client was told elsewhere. It waits
    /// for nobody.
    pub fn learn(&mut self, shown: &Shown)
        // It is of the evaluator's store.
        requires { shown.now.store ≡ self.old.known.store }
        // What is known goes on from what was known,
        ensures kept { Begins self.old.known self.new.known }
        // and from what is learnt.
        ensures learnt { Begins shown.now self.new.known }
        // What is lent stays.
        ensures lent { self.new.lent ≡ self.old.lent }
    {
        if self.known.is_behind(shown) {
            self.known = shown.again();
        }
    }
}
