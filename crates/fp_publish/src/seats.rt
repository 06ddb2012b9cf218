//! Seats: what subscribers have, and the document that they are handed.

ghost use Rattle.std.specs.Prelude.{◌≡◌, ◌<◌, ◌≤◌, ◌+◌, ◌-◌, ◌⊎◌, None, Some, IfOk, OnOk, OnErr};
ghost use Rattle.std.specs.Prelude.{MatchOption, MatchResult};
ghost use Rattle.fp_documents.specs.Document.{document};
ghost use Rattle.fp_group_commit.specs.Tokens.{front_revision, front_set};
ghost use Rattle.fp_publish.specs.Seats.{IsOfStore, IsNews, had_by};
ghost use Rattle.fp_stream.specs.declared.hello.Hello.TheVariants.{Has};
ghost use Rattle.fp_publish.specs.declared.seats.TheConstants.{MOST_SEATS};

use crate::published::View;
use crate::shown::Shown;
use fp_edit::Document;
use fp_stream::Hello;
use std::alloc::{AllocError, Global};
use std::marker::Model;
use std::sync::Arc;

/// The most subscribers at once.
pub const MOST_SEATS: usize = 32;

/// A snapshot for a subscriber: the document of what was shown. It was made once,
/// for all who are handed it.
#[derive(Drop)]
pub struct Handed {
    shown: Shown,
    made: Arc<Document, Global>,
}

impl Model for Handed {
    ghost use Rattle.std.specs.Arc.{arc_value};
    ghost use Rattle.std.specs.Coded.{codes};
    ghost use Rattle.std.specs.Prelude.{◌≡◌};
    ghost use Rattle.fp_edit.specs.Flags.{coded_state};
    ghost use Rattle.fp_documents.specs.Outline.{IsDocumentOf};
    ghost use Rattle.fp_group_commit.specs.Changes.{coded_change};
    ghost use Rattle.fp_group_commit.specs.Tokens.{FrontState, front_set};

    ghost Value = { FrontState };

    ghost coded = { Prim.hlevel (codes, coded_state, coded_change) };

    ghost view = { λ h. h.shown };

    ghost invariant = { λ h. IsDocumentOf (arc_value h.made) (front_set h.shown) };
}

impl Handed {
    // Makes the document of what is lent.
    fn of(alloc: Global, view: &View<'_>) -> Result<Handed, AllocError>
        ensures { IfOk result (λ h. h ≡ view.now) }
    {
        let made = Arc::new(alloc, view.set().outlined()?)?;
        Ok(Handed {
            shown: view.shown(),
            made,
        })
    }

    // Makes it what is lent, of the document that it has, where what is lent goes on from it. Where
    // nobody else holds that document, it is changed in its place.
    fn renew(&mut self, alloc: Global, view: &View<'_>) -> Result<(), AllocError>
        requires { self.old.store ≡ view.now.store }
        ensures renewed { OnOk result (self.new ≡ view.now) }
        ensures unchanged { OnErr result (self.new ≡ self.old) }
    {
        let shown = view.shown();
        if self.shown.is_same(&shown) {
            return Ok(());
        }
        if !self.shown.is_behind(&shown) {
            *self = Handed::of(alloc, view)?;
            return Ok(());
        }
        match Arc::get_mut(&mut self.made) {
            Some(made) => view.set().outline_into(made)?,
            None => self.made = Arc::new(alloc, view.set().outlined_after(&self.made)?)?,
        }
        self.shown = shown;
        Ok(())
    }

    /// The document of the set that its front leads to, as subscribers get it.
    pub fn document(&self) -> &[u8]
        ensures { result.now ≡ document (front_set self.now).flags }
    {
        self.made.text()
    }

    /// The revision of its front.
    pub fn revision(&self) -> u64
        ensures { result ≡ front_revision self.now }
    {
        self.shown.revision()
    }

    /// That its front was shown. It takes no memory.
    pub fn shown(&self) -> Shown
        ensures { result ≡ self.now }
    {
        self.shown.again()
    }

    // The same once more. It shares the document.
    fn try_copy(&self) -> Result<Handed, AllocError>
        ensures { IfOk result (λ h. h ≡ self.now) }
    {
        Ok(Handed {
            shown: self.shown.again(),
            made: Arc::try_clone(&self.made)?,
        })
    }
}

/// A subscriber's place, and what the subscriber has.
#[derive(Drop)]
pub struct Seat {
    has: Hello,
}

/// All seats are taken.
#[derive(Debug, Drop, Clone, Copy)]
pub struct SeatsUsed;

/// The seats of a board's subscribers, and what was handed last.
#[derive(Drop)]
pub struct Seats {
    taken: usize,
    last: Option<Handed>,
}

impl Seats {
    /// The seats of a board, none of which is taken.
    pub fn new() -> Seats
        ensures taken { result.taken ≡ 0 }
        // Nothing was handed yet.
        ensures last { result.last ≡ None }
    {
        Seats {
            taken: 0,
            last: None,
        }
    }

    /// A seat for a subscriber that has this. Refused where all are taken.
    pub fn seat(&mut self, hello: Hello) -> Result<Seat, SeatsUsed>
        // `Ok`: fewer than 32 were taken, one more is now, and the seat has what was said.
        // `SeatsUsed` exactly where 32 are taken.
        ensures taken { MatchResult result
            (λ s. (self.old.taken < MOST_SEATS) × (self.new.taken ≡ self.old.taken + 1)
            × (had_by s ≡ hello))
            (λ _. (MOST_SEATS ≤ self.old.taken) × (self.new.taken ≡ self.old.taken)) }
        // What was handed last stays.
        ensures last { self.new.last ≡ self.old.last }
    {
        if self.taken >= MOST_SEATS {
            return Err(SeatsUsed);
        }
        self.taken += 1;
        Ok(Seat { has: hello })
    }

    /// Takes a seat back, so that one fewer is taken. Where none was taken it changes nothing.
    pub fn unseat(&mut self, _seat: Seat)
        ensures { self.new ≡ record self.old { taken = self.old.taken - 1 } }
    {
        self.taken = self.taken.saturating_sub(1);
    }

    /// Hands what is published to a subscriber that hasn't got it. Its document is made when the
    /// first seat asks for it, out of the one before, and shared by the others.
    pub fn hand(
        &mut self,
        alloc: Global,
        view: &View<'_>,
        seat: &mut Seat,
    ) -> Result<Option<Handed>, AllocError>
        // What was handed last is of this store.
        requires store { IsOfStore self.old.last view.now }
        // `Ok`: `None` exactly where the subscriber has this revision or a greater one. Else it
        // is handed what is lent, and has its revision.
        ensures handed { IfOk result (λ o. MatchOption o
            (¬ IsNews (had_by seat.old) view.now × (had_by seat.new ≡ had_by seat.old))
            (λ h. IsNews (had_by seat.old) view.now × (h ≡ view.now)
            × (had_by seat.new ≡ Has (front_revision view.now)))) }
        // `Err`: the seat is as it was.
        ensures unchanged { OnErr result (seat.new ≡ seat.old) }
        // `Err` only where there was something to hand.
        ensures turn { OnErr result (IsNews (had_by seat.old) view.now) }
        // What was handed last is still there, or is what is lent.
        ensures last { (self.new.last ≡ self.old.last) ⊎ (self.new.last ≡ Some view.now) }
        // What was handed last is of this store.
        ensures store { IsOfStore self.new.last view.now }
        // As many seats are taken as before.
        ensures taken { self.new.taken ≡ self.old.taken }
    {
        if !seat.has.is_behind(view.revision()) {
            return Ok(None);
        }
        let handed = self.made(alloc, view)?;
        seat.has = Hello::Has(view.revision());
        Ok(Some(handed))
    }

    // What is lent, with the document that was made of it, or is made now.
    fn made(&mut self, alloc: Global, view: &View<'_>) -> Result<Handed, AllocError>
        requires store { IsOfStore self.old.last view.now }
        ensures handed { IfOk result (λ h. h ≡ view.now) }
        ensures last { (self.new.last ≡ self.old.last) ⊎ (self.new.last ≡ Some view.now) }
        ensures store { IsOfStore self.new.last view.now }
        ensures taken { self.new.taken ≡ self.old.taken }
    {
        if let Some(last) = &mut self.last {
            last.renew(alloc, view)?;
            return last.try_copy();
        }
        let handed = Handed::of(alloc, view)?;
        self.last = Some(handed.try_copy()?);
        Ok(handed)
    }
}
