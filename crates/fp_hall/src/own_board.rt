//! A board that a hall owns.

ghost use Rattle.std.specs.Prelude.{◌≡◌, ◌<◌, None, IfOk, OnOk, OnErr, MatchOption};
ghost use Rattle.fp_desk.specs.Desk.{settled_front};
ghost use Rattle.fp_group_commit.specs.Tokens.{FrontState, front_revision};
ghost use Rattle.fp_publish.specs.Fronts.{Begins};

use fp_desk::Desk;
use fp_group_commit::Told;
use fp_publish::{Board, Evaluator, MOST_EVALUATORS, Shown, View};
use std::alloc::{AllocError, Global};
use std::marker::Model;
use std::sync::Wait;

/// A board that ends where it is let go of, which may wait for evaluators that don't rest.
pub struct OwnBoard<R: Wait + Drop> {
    board: Board,
    rt: R,
}

impl<R: Wait + Drop> Model for OwnBoard<R> {
    ghost use Rattle.std.specs.Coded.{codes};
    ghost use Rattle.fp_edit.specs.Flags.{coded_state};
    ghost use Rattle.fp_group_commit.specs.Changes.{coded_change};
    ghost use Rattle.fp_group_commit.specs.Tokens.{FrontState};

    ghost Value = { FrontState };

    ghost coded = { Prim.hlevel (codes, coded_state, coded_change) };

    ghost view = { λ b. b.board };
}

impl<R: Wait + Drop> Drop for OwnBoard<R> {
    fn drop(self) {
        let Self { board, rt } = self;
        board.end(&rt);
    }
}

impl<R: Wait + Drop> OwnBoard<R> {
    /// Shows the desk's settled set.
    pub fn new(rt: R, alloc: Global, desk: &Desk) -> Result<OwnBoard<R>, AllocError>
        ensures { IfOk result (λ b. b ≡ settled_front desk.now) }
    {
        let board = Board::new(&rt, alloc, desk, MOST_EVALUATORS)?;
        Ok(OwnBoard { board, rt })
    }

    /// An evaluator more, which knows what is shown.
    pub fn evaluator(&mut self) -> Result<Evaluator, AllocError>
        ensures same { self.new ≡ self.old }
        ensures made { IfOk result (λ e. e ≡ record { known = self.old; lent = None }) }
    {
        self.board.evaluator()
    }

    /// Shows the desk's settled set.
    pub fn publish(&mut self, desk: &Desk) -> Result<Shown, AllocError>
        requires { Begins self.old (settled_front desk.now) }
        ensures published { OnOk result (self.new ≡ settled_front desk.now) }
        ensures shown { IfOk result (λ s. s ≡ self.new) }
        ensures unchanged { OnErr result (self.new ≡ self.old) }
    {
        let shown = self.board.publish(&self.rt, desk)?;
        Ok(shown)
    }

    /// What evaluators take now.
    pub fn view(&self) -> View<'_>
        ensures { result ≡ self.now }
    {
        self.board.view()
    }

    /// What is shown, where it is no less than what was told.
    pub fn shown(&self, told: &Told) -> Option<Shown>
        requires { told.now.store ≡ self.now.store }
        ensures { MatchOption result (front_revision self.now < front_revision told.now)
            (λ s. (s ≡ self.now) × Begins told.now s) }
    {
        self.board.shown(told)
    }
}
