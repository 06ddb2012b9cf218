//! What a hall lends: evaluators of its board, and seats that are handed what is shown.

ghost use Rattle.std.specs.Prelude.{◌≡◌, ◌⊎◌, ◌<◌, ◌≤◌, ◌+◌, ◌-◌, ◌++◌, ◌∷◌, [], ◌&&◌, None, Some};
ghost use Rattle.std.specs.Prelude.{is_err, length, IfOk, IfSome, MatchOption, MatchResult, OnErr};
ghost use Rattle.fp_group_commit.specs.Tokens.{front_revision};
ghost use Rattle.fp_publish.specs.Seats.{IsNews, had_by};
ghost use Rattle.fp_hall.specs.Numbers.{most_evaluators, most_seats};
ghost use Rattle.fp_stream.specs.declared.hello.Hello.TheVariants.{Has};

use super::{EvaluatorsUsed, Gone, Hall, Staying};
use crate::naming::Naming;
use fp_publish::{Evaluator, Handed, MOST_EVALUATORS, Seat, SeatsUsed};
use fp_stream::Hello;
use std::alloc::AllocError;
use std::marker::{Model, PhantomData};
use std::sync::Wait;

/// A seat of the hall of this name that is taken. It can't be let go of: only `Hall::unseat` uses it
/// up.
pub struct TakenSeat<K: Naming> {
    seat: Seat,
    of: PhantomData<K>,
}

impl<K: Naming> Model for TakenSeat<K> {
    ghost use Rattle.fp_publish.specs.declared.seats.Seat.{Seat};

    ghost Value = { Seat };

    ghost view = { λ s. s.seat };
}

impl<K: Naming, R: Wait + Drop> Hall<K, R> {
    // ---- evaluators

    /// An evaluator that nobody has.
    pub fn evaluator(&mut self) -> Result<Evaluator, EvaluatorsUsed>
        // `Ok`: it is of the plane's store, and is lent nothing.
        ensures ours { IfOk result (λ e. (e.known.store ≡ K.store) × (e.lent ≡ None)) }
        // `Ok`: it is one of those that nobody had, and isn't any more.
        ensures lent { IfOk result (λ e. self.old.idle ≡ self.new.idle ++ e ∷ []) }
        // Refused exactly where somebody has each; nothing has changed.
        ensures used { OnErr result ((self.old.idle ≡ []) × (self.new ≡ self.old)) }
        // Nothing else changes.
        ensures rest { self.new ≡ record self.old { idle = self.new.idle } }
    {
        match self.idle.pop() {
            Some(evaluator) => Ok(evaluator),
            None => Err(EvaluatorsUsed),
        }
    }

    /// Takes an evaluator back, at rest. It is let go of where none is out.
    pub fn give_back(&mut self, evaluator: Evaluator)
        // The evaluator is of the plane's store.
        requires { evaluator.known.store ≡ K.store }
        // Where fewer than 16 are here, it is one of those that nobody has, and is lent nothing.
        ensures back { length self.old.idle < most_evaluators → self.new.idle
            ≡ self.old.idle ++ (record { known = evaluator.known; lent = None }) ∷ [] }
        // Where all are here nothing changes.
        ensures none_out { most_evaluators ≤ length self.old.idle → self.new ≡ self.old }
        // Nothing else changes.
        ensures rest { self.new ≡ record self.old { idle = self.new.idle } }
    {
        let mut evaluator = evaluator;
        evaluator.rest();
        if self.idle.len() < MOST_EVALUATORS {
            self.idle.push_reserved(evaluator);
        }
    }

    // ---- subscribers

    /// A seat for a subscriber that has this.
    pub fn seat(&mut self, hello: Hello) -> Result<TakenSeat<K>, SeatsUsed>
        // `Ok`: fewer than 32 were taken, one more is now, and the seat has what was said.
        // `SeatsUsed` exactly where 32 are taken.
        ensures taken { MatchResult result
            (λ s. (self.old.taken < most_seats) × (self.new.taken ≡ self.old.taken + 1)
            × (had_by s ≡ hello))
            (λ _. (most_seats ≤ self.old.taken) × (self.new.taken ≡ self.old.taken)) }
        // Nothing else changes.
        ensures rest { self.new ≡ record self.old { taken = self.new.taken } }
    {
        let seat = self.seats.seat(hello)?;
        Ok(TakenSeat {
            seat,
            of: PhantomData,
        })
    }

    /// Takes a seat back, so that one fewer is taken.
    pub fn unseat(&mut self, taken: TakenSeat<K>)
        ensures { self.new ≡ record self.old { taken = self.old.taken - 1 } }
    {
        let TakenSeat { seat, of: _ } = taken;
        self.seats.unseat(seat);
    }

    /// Hands what is shown to a subscriber that hasn't got it.
    pub fn hand(&mut self, seat: &mut TakenSeat<K>) -> Result<Option<Handed>, AllocError>
        // `Ok`: `None` exactly where the subscriber has this revision or a greater one. Else it
        // is handed what is shown, and has its revision.
        ensures handed { IfOk result (λ o. MatchOption o
            (¬ IsNews (had_by seat.old) self.old.shown × (had_by seat.new ≡ had_by seat.old))
            (λ h. IsNews (had_by seat.old) self.old.shown × (h ≡ self.old.shown)
            × (had_by seat.new ≡ Has (front_revision self.old.shown)))) }
        // `Ok`: what is handed is of the plane's store.
        ensures ours { IfOk result (λ o. IfSome o (λ h. h.store ≡ K.store)) }
        // `Err`: the seat is as it was.
        ensures unchanged { OnErr result (seat.new ≡ seat.old) }
        // `Err` only where there was something to hand.
        ensures turn { OnErr result (IsNews (had_by seat.old) self.old.shown) }
        // What was handed last is still there, or is what is shown.
        ensures last { (self.new.handed ≡ self.old.handed)
            ⊎ (self.new.handed ≡ Some self.old.shown) }
        // Nothing else changes.
        ensures rest { self.new ≡ record self.old { handed = self.new.handed } }
    {
        let view = self.board.view();
        self.seats.hand(self.alloc, &view, &mut seat.seat)
    }

    /// How often it was looked who has left, up to an overflow. No clause speaks of it.
    pub fn looks(&self) -> u64 {
        self.looks
    }

    /// Looks who has left: nothing that is seen of the hall changes.
    pub fn look(&mut self)
        ensures { self.new ≡ self.old }
    {
        self.looks = self.looks.wrapping_add(1);
    }

    /// That subscribers stay: `Err` exactly where the plane is to stop and no batch is drawn any
    /// more, so that nothing more is shown.
    pub fn staying(&self) -> Result<Staying, Gone>
        ensures { is_err result ≡ (self.now.closing && self.now.ended) }
    {
        if self.is_closing && self.has_ended {
            Err(Gone { of: () })
        } else {
            Ok(Staying { of: () })
        }
    }
}
