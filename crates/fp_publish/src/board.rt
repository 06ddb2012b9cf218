//! The board: who publishes.

ghost use Rattle.std.specs.Prelude.{◌≡◌, ◌<◌, ◌≤◌, true, None, [], drop, fold, IfOk};
ghost use Rattle.std.specs.Prelude.{OnOk, OnErr, MatchOption};
ghost use Rattle.left_right.specs.Sides.{view as seat_knows};
ghost use Rattle.fp_edit.specs.Following.{changes_of};
ghost use Rattle.fp_desk.specs.Desk.{settled_front};
ghost use Rattle.fp_group_commit.specs.Tokens.{front_revision};
ghost use Rattle.fp_publish.specs.Fronts.{Begins};
ghost use Rattle.fp_publish.specs.Rule.{page_after, page_at, with_changes};
ghost use Rattle.fp_publish.specs.declared.board.TheConstants.{MOST_EVALUATORS};
ghost use Rattle.fp_publish.specs.declared.page.Step.TheVariants.{Settled};

use crate::evaluator::Evaluator;
use crate::page::{Page, Step};
use crate::published::{Published, View};
use crate::rule::{Learns, OnlyGrows, Sees, Tells};
use crate::shown::Shown;
use fp_desk::Desk;
use fp_edit::Edit;
use fp_group_commit::{Part, Told};
use left_right::writer::Writer;
use std::alloc::{AllocError, Global};
use std::marker::Model;
use std::mem;
use std::sync::Wait;

/// The most evaluators of a board.
pub const MOST_EVALUATORS: usize = 16;

type Pages = Writer<Page, Step, Option<Part>, OnlyGrows>;

/// What publishes. It is no `Drop`: `end` ends it.
///
/// `next` is the front that readers would take once the steps that are pending are taken, where
/// `leads` says that they lead to one.
pub struct Board {
    writer: Option<Pages>,
    shown: Shown,
    next: Shown,
    leads: bool,
}

impl Model for Board {
    ghost use Rattle.std.specs.Coded.{codes};
    ghost use Rattle.std.specs.Prelude.{IsSomeAnd, drop};
    ghost use Rattle.left_right.specs.Sides.{view as view_of};
    ghost use Rattle.fp_edit.specs.Flags.{coded_state};
    ghost use Rattle.fp_group_commit.specs.Changes.{coded_change};
    ghost use Rattle.fp_group_commit.specs.Tokens.{FrontState};
    ghost use Rattle.fp_publish.specs.Board.{IsReady};

    ghost Value = { FrontState };

    ghost coded = { Prim.hlevel (codes, coded_state, coded_change) };

    ghost view = { λ b. b.shown };

    ghost invariant = { λ b. IsSomeAnd b.writer (λ w. IsReady w.desk.shown.value
        (view_of w.desk.place) (drop w.behind w.log.items) b.shown b.next b.leads) };
}

// Appends one step.
fn put(writer: &mut Pages, step: Step) -> Result<(), AllocError>
    ensures desk { writer.new.desk ≡ writer.old.desk }
    ensures appended { OnOk result ((p : Page)
        → fold page_after p (drop writer.new.behind writer.new.log.items)
        ≡ page_after (fold page_after p (drop writer.old.behind writer.old.log.items)) step) }
{
    if writer.append(step).is_err() {
        return Err(AllocError);
    }
    Ok(())
}

// Appends the edits.
fn put_edits(writer: &mut Pages, edits: &[Edit]) -> Result<(), AllocError>
    ensures desk { writer.new.desk ≡ writer.old.desk }
    ensures appended { OnOk result ((p : Page)
        → fold page_after p (drop writer.new.behind writer.new.log.items)
        ≡ with_changes (fold page_after p (drop writer.old.behind writer.old.log.items))
        (changes_of edits.now)) }
{
    for edit in edits {
        put(writer, Step::Change(edit.try_copy()?))?;
    }
    Ok(())
}

// Appends a batch's edits, and what they lead to.
fn put_batch(writer: &mut Pages, edits: &[Edit], told: &Shown) -> Result<(), AllocError>
    ensures desk { writer.new.desk ≡ writer.old.desk }
    ensures appended { OnOk result ((p : Page)
        → fold page_after p (drop writer.new.behind writer.new.log.items)
        ≡ page_after (with_changes (fold page_after p
        (drop writer.old.behind writer.old.log.items)) (changes_of edits.now))
        (Settled told.now)) }
{
    put_edits(writer, edits)?;
    put(writer, Step::Settled(told.front()))
}

// Appends all of the settled set.
fn put_whole(writer: &mut Pages, desk: &Desk, told: &Shown) -> Result<(), AllocError>
    requires { told.now ≡ settled_front desk.now }
    ensures desk { writer.new.desk ≡ writer.old.desk }
    ensures appended { OnOk result ((p : Page)
        → fold page_after p (drop writer.new.behind writer.new.log.items)
        ≡ page_at (settled_front desk.now)) }
{
    let set = desk.settled_copy()?;
    put(writer, Step::Whole(set, told.front()))
}

// Appends what leads to the settled set: nothing, or the batch that was settled
// last, or all of the set.
fn put_settled(writer: &mut Pages, next: &Shown, leads: bool, desk: &Desk) -> Result<(), AllocError>
    requires store { next.now.store ≡ desk.now.store }
    requires leads { leads ≡ true → fold page_after writer.old.desk.shown.value
        (drop writer.old.behind writer.old.log.items) ≡ page_at next.now }
    ensures desk { writer.new.desk ≡ writer.old.desk }
    ensures appended { OnOk result (fold page_after writer.old.desk.shown.value
        (drop writer.new.behind writer.new.log.items) ≡ page_at (settled_front desk.now)) }
{
    let told = Shown::of(&desk.told());
    let last = desk.last_batch();
    if leads && next.is_same(&told) {
        return Ok(());
    }
    if leads && next.is_just_before(&told, last) {
        return put_batch(writer, last, &told);
    }
    put_whole(writer, desk, &told)
}

// A writer over two copies of the page that the desk's settled set makes.
fn first_pages(alloc: Global, desk: &Desk, evaluators: usize) -> Result<Pages, AllocError>
    requires { (0 < evaluators) × (evaluators ≤ MOST_EVALUATORS) }
    ensures { IfOk result (λ w. (w.desk.shown.value ≡ page_at (settled_front desk.now))
        × (drop w.behind w.log.items ≡ []) × (seat_knows w.desk.place ≡ None)) }
{
    let first = Published::build(desk)?.into_page();
    let second = first.try_copy()?;
    Writer::new(alloc, first, second, evaluators)
}

// Ends a writer, where there is one.
fn end_writer<R: Wait>(rt: &R, writer: Option<Pages>) {
    if let Some(writer) = writer {
        writer.take(rt);
    }
}

impl Board {
    /// Shows the desk's settled set, for so many evaluators at most. It may wait.
    pub fn new<R: Wait>(
        rt: &R,
        alloc: Global,
        desk: &Desk,
        evaluators: usize,
    ) -> Result<Board, AllocError>
        // 1 to 16 evaluators.
        requires { (0 < evaluators) × (evaluators ≤ MOST_EVALUATORS) }
        ensures { IfOk result (λ b. b ≡ settled_front desk.now) }
    {
        let writer = first_pages(alloc, desk, evaluators)?;
        let (writer, done) = writer.publish_as::<Sees, R>(rt);
        if done.is_err() {
            writer.take(rt);
            return Err(AllocError);
        }
        let shown = Shown::of(&desk.told());
        Ok(Board {
            writer: Some(writer),
            next: shown.again(),
            shown,
            leads: true,
        })
    }

    /// An evaluator more, for a thread that replies over what is shown. `Err` also where there is
    /// no room for it.
    pub fn evaluator(&mut self) -> Result<Evaluator, AllocError>
        // What is shown stays.
        ensures same { self.new ≡ self.old }
        // `Ok`: it knows what is shown, and is lent nothing.
        ensures made { IfOk result (λ e. e ≡ record { known = self.old; lent = None }) }
    {
        let known = self.shown.again();
        let Some(writer) = &mut self.writer else {
            unreachable!()
        };
        let mut reader = writer.factory().reader()?;
        reader.learn::<Learns>(writer.tell::<Tells>());
        Ok(Evaluator::new(reader, known))
    }

    /// Shows the desk's settled set. It may wait for evaluators that don't rest; at `Err` they
    /// take what they took, and the next call goes on from there.
    pub fn publish<R: Wait>(&mut self, rt: &R, desk: &Desk) -> Result<Shown, AllocError>
        // The desk's settled front goes on from what is shown.
        requires { Begins self.old (settled_front desk.now) }
        // `Ok`: what is shown is the desk's settled front.
        ensures published { OnOk result (self.new ≡ settled_front desk.now) }
        // `Ok`: the `Shown` names it.
        ensures shown { IfOk result (λ s. s ≡ self.new) }
        // `Err`: what is shown is as before.
        ensures unchanged { OnErr result (self.new ≡ self.old) }
    {
        let Some(mut writer) = self.writer.take() else {
            unreachable!()
        };
        let Ok(()) = put_settled(&mut writer, &self.next, self.leads, desk) else {
            self.leads = false;
            end_writer(rt, mem::replace(&mut self.writer, Some(writer)));
            return Err(AllocError);
        };
        let (writer, done) = writer.publish_as::<Sees, R>(rt);
        end_writer(rt, mem::replace(&mut self.writer, Some(writer)));
        let told = Shown::of(&desk.told());
        self.next = told.again();
        self.leads = true;
        if done.is_err() {
            return Err(AllocError);
        }
        self.shown = told.again();
        Ok(told)
    }

    /// Lends what evaluators take now.
    pub fn view(&self) -> View<'_>
        ensures { result ≡ self.now }
    {
        let Some(writer) = &self.writer else {
            unreachable!()
        };
        View::of(writer.published())
    }

    /// A token of what is shown, where that is no less than what was told.
    pub fn shown(&self, told: &Told) -> Option<Shown>
        // What was told is of the board's store.
        requires { told.now.store ≡ self.now.store }
        // `Some` exactly where the revision that is shown is at least the told one. What is shown
        // goes on from what was told then.
        ensures { MatchOption result (front_revision self.now < front_revision told.now)
            (λ s. (s ≡ self.now) × Begins told.now s) }
    {
        let told = Shown::of(told);
        if self.shown.is_behind(&told) {
            return None;
        }
        Some(self.shown.again())
    }

    /// Waits for evaluators that don't rest, and ends what they take.
    pub fn end<R: Wait>(self, rt: &R) {
        let Board {
            writer,
            shown: _,
            next: _,
            leads: _,
        } = self;
        end_writer(rt, writer);
    }
}
