//! What is published, and who takes it: the board, its evaluators, and the seats of subscribers.

ghost use Rattle.std.specs.Prelude.{◌≡◌, ◌≢◌, ◌<◌, ◌≤◌, None, length, map, slice_set, IfOk};
ghost use Rattle.std.specs.Prelude.{MatchOption, OnErr};
ghost use Rattle.std.specs.List.{All};
ghost use Rattle.fp_group_commit.specs.Tokens.{front_revision, front_set};
ghost use Rattle.fp_desk.specs.Desk.{settled_front, settled_revision};
ghost use Rattle.fp_ofrep.specs.Seen.{response_seen};
ghost use Rattle.fp_publish.specs.Fronts.{Begins};
ghost use Rattle.fp_publish.specs.Seats.{had_by};
ghost use Rattle.fp_stream.specs.declared.hello.Hello.TheVariants.{Has};
ghost use Rattle.fp_publish.specs.declared.board.TheConstants.{MOST_EVALUATORS};
ghost use Rattle.fp_publish.specs.declared.seats.TheConstants.{MOST_SEATS};
ghost use Rattle.fp_world.specs.Machine.{reply_to};
ghost use Rattle.fp_world.specs.Views.{HasNews, HasNoNews, IsResting};

use crate::request::{Moment, Request};
use fp_desk::Desk;
use fp_ofrep::{Body, Reply, answer};
use fp_publish::{Board, Evaluator, Handed, Seat, Seats, Shown, View};
use fp_stream::Hello;
use std::alloc::{AllocError, Global};
use std::marker::Model;
use std::sync::Wait;

/// The board, with a token of what it shows; evaluators, which rest between events;
/// and who sits in its seats.
pub(crate) struct Views {
    alloc: Global,
    board: Board,
    shown: Shown,
    readers: Vec<Evaluator>,
    seats: Seats,
    places: Vec<Seat>,
}

impl Model for Views {
    ghost use Rattle.std.specs.Coded.{codes};
    ghost use Rattle.std.specs.Prelude.{length, map};
    ghost use Rattle.fp_edit.specs.Flags.{coded_state};
    ghost use Rattle.fp_group_commit.specs.Changes.{coded_change};
    ghost use Rattle.fp_publish.specs.Seats.{had_by};
    ghost use Rattle.fp_world.specs.Views.{IsShown, ViewsState};

    ghost Value = { ViewsState };

    ghost coded = { Prim.hlevel (codes, coded_state, coded_change) };

    ghost view = { λ v. record {
      board = v.board;
      seats = map had_by v.places.items;
      readers = length v.readers.items;
    } };

    ghost invariant = { λ v. IsShown v.board v.shown v.readers.items v.seats.last };
}

// A seat for each subscriber, who has what is said here.
fn seated(alloc: Global, hellos: &[Hello]) -> Result<(Seats, Vec<Seat>), AllocError>
    requires { length hellos.now ≤ MOST_SEATS }
    ensures { IfOk result (λ r. (r.0.last ≡ None) × (map had_by r.1.items ≡ hellos.now)) }
{
    let mut seats = Seats::new();
    let mut places = Vec::with_capacity(alloc, hellos.len())?;
    for hello in hellos {
        let Ok(seat) = seats.seat(*hello) else {
            unreachable!()
        };
        places.push_reserved(seat);
    }
    Ok((seats, places))
}

// So many evaluators of a board.
fn evaluators(alloc: Global, board: &mut Board, count: usize) -> Result<Vec<Evaluator>, AllocError>
    ensures same { board.new ≡ board.old }
    ensures made { IfOk result (λ r. (length r.items ≡ count)
        × All (IsResting board.old.store) r.items) }
{
    let mut readers = Vec::with_capacity(alloc, count)?;
    for _ in 0..count {
        readers.push_reserved(board.evaluator()?);
    }
    Ok(readers)
}

// The reply over what is lent.
fn replied(
    alloc: Global,
    view: &View<'_>,
    request: &Request,
    now: &Moment,
) -> Result<Reply, AllocError>
    ensures { IfOk result
        (λ r. response_seen r ≡ reply_to (front_set view.now) request.now now.now) }
{
    let tags = request.if_none_match.as_ref().map(|tags| tags.as_slice());
    let body = match &request.body {
        Some(whole) => Body::Whole(whole.as_slice()),
        None => Body::TooLong,
    };
    let target = request.target.as_str();
    answer(
        alloc,
        view,
        &request.method,
        target,
        tags,
        body,
        now.seconds(),
    )
}

// The reply of an evaluator over what is shown, which it learns first. Should it take anything
// else, or nothing, the board's own view takes its place.
fn evaluated(
    alloc: Global,
    evaluator: &mut Evaluator,
    shown: &Shown,
    board: &View<'_>,
    request: &Request,
    now: &Moment,
) -> Result<Reply, AllocError>
    requires shown { shown.now ≡ board.now }
    requires rests { IsResting board.now.store evaluator.old }
    ensures rests { IsResting board.now.store evaluator.new }
    ensures over { IfOk result
        (λ r. response_seen r ≡ reply_to (front_set board.now) request.now now.now) }
{
    evaluator.learn(shown);
    let _ = evaluator.enter();
    let reply = match evaluator.view() {
        Some(view) if view.revision() == board.revision() => replied(alloc, &view, request, now),
        _ => replied(alloc, board, request, now),
    };
    evaluator.rest();
    reply
}

impl Views {
    /// Shows what the desk has settled, to so many evaluators and to
    /// subscribers who have what they say.
    pub fn new<R: Wait>(
        rt: &R,
        alloc: Global,
        desk: &Desk,
        hellos: &[Hello],
        readers: usize,
    ) -> Result<Views, AllocError>
        requires seats { length hellos.now ≤ MOST_SEATS }
        requires readers { readers ≤ MOST_EVALUATORS }
        ensures { IfOk result (λ v. v
            ≡ record { board = settled_front desk.now; seats = hellos.now; readers = readers }) }
    {
        let (seats, places) = seated(alloc, hellos)?;
        let mut board = Board::new(rt, alloc, desk, readers.max(1))?;
        let Some(shown) = board.shown(&desk.told()) else {
            board.end(rt);
            unreachable!()
        };
        let Ok(readers) = evaluators(alloc, &mut board, readers) else {
            board.end(rt);
            return Err(AllocError);
        };
        Ok(Views {
            alloc,
            board,
            shown,
            readers,
            seats,
            places,
        })
    }

    /// Shows what the desk has settled, where that isn't shown. It may wait
    /// for an evaluator elsewhere.
    pub fn publish<R: Wait>(&mut self, rt: &R, desk: &Desk) -> Result<Option<Shown>, AllocError>
        requires { Begins self.old.board (settled_front desk.now) }
        ensures shown { IfOk result (λ o. MatchOption o
            ((front_revision self.old.board ≡ settled_revision desk.now) × (self.new ≡ self.old))
            (λ s. (front_revision self.old.board ≢ settled_revision desk.now)
            × (s ≡ settled_front desk.now)
            × (self.new ≡ record self.old { board = settled_front desk.now }))) }
        ensures turn { OnErr result (front_revision self.old.board ≢ settled_revision desk.now) }
        ensures unchanged { OnErr result (self.new ≡ self.old) }
    {
        if self.shown.revision() == desk.settled_revision() {
            return Ok(None);
        }
        let shown = self.board.publish(rt, desk)?;
        self.shown = shown.again();
        Ok(Some(shown))
    }

    /// How many seats there are.
    pub fn seats(&self) -> usize
        ensures { result ≡ length self.now.seats }
    {
        self.places.len()
    }

    /// Hands what is shown to the subscriber of this seat, where that is news.
    pub fn hand(&mut self, seat: usize) -> Result<Option<Handed>, AllocError>
        requires { seat < length self.old.seats }
        ensures handed { IfOk result (λ o. MatchOption o
            (HasNoNews self.old seat × (self.new ≡ self.old))
            (λ h. HasNews self.old seat × (h ≡ self.old.board)
            × (self.new ≡ record self.old {
              seats = slice_set self.old.seats seat (Has (front_revision self.old.board));
            }))) }
        ensures unchanged { OnErr result (self.new ≡ self.old) }
        ensures turn { OnErr result (HasNews self.old seat) }
    {
        let place = &mut self.places[seat];
        self.seats.hand(self.alloc, &self.board.view(), place)
    }

    /// How many evaluators there are.
    pub fn readers(&self) -> usize
        ensures { result ≡ self.now.readers }
    {
        self.readers.len()
    }

    /// The reply of this evaluator over what is shown.
    pub fn evaluate(
        &mut self,
        reader: usize,
        request: &Request,
        now: &Moment,
    ) -> Result<Reply, AllocError>
        requires { reader < self.old.readers }
        ensures over { IfOk result (λ r. response_seen r
            ≡ reply_to (front_set self.old.board) request.now now.now) }
        ensures same { self.new ≡ self.old }
    {
        let view = self.board.view();
        let evaluator = &mut self.readers[reader];
        evaluated(self.alloc, evaluator, &self.shown, &view, request, now)
    }

    /// The revision that is shown.
    pub fn revision(&self) -> u64
        ensures { result ≡ front_revision self.now.board }
    {
        self.shown.revision()
    }

    /// Ends the board. It waits for evaluators elsewhere that don't rest.
    pub fn end<R: Wait>(self, rt: &R) {
        let Views {
            alloc: _,
            board,
            shown: _,
            readers: _,
            seats: _,
            places: _,
        } = self;
        board.end(rt);
    }
}
