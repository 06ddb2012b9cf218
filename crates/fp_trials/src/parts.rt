//! A store and a desk without a world, for what no list of events leads to.

ghost use Rattle.std.specs.Prelude.{◌≡◌, IfOk, IfSome, OnOk, IsTrue};
ghost use Rattle.fp_group_commit.specs.declared.phase.Phase.TheVariants.{Staged, BodySynced};
ghost use Rattle.fp_group_commit.specs.declared.phase.Phase.TheVariants.{GateOpened};

use crate::confirm::confirm;
use crate::event::{not_done, refused};
use crate::text::edit_of;
use crate::trial::{Answer, Trial};
use crate::world::found;
use fp_desk::{Desk, SettleFault};
use fp_disk::MemoryDisk;
use fp_edit::Edit;
use fp_group_commit::{Draw, Opening, Phase, Receipt, Store, StoreFault};
use fp_transcript::{Args, Text};
use std::alloc::Global;

/// `stop EDIT`, `stray FIRST EDIT`, `receipt EDIT / EDIT`, `confirm EDIT / EDIT`, of the disk
/// as it is opened now.
pub fn on_parts(trial: &mut Trial, word: &str, args: &mut Args<'_>) -> Answer {
    let disk = trial.take_disk();
    match found(trial.alloc, disk) {
        Ok((store, opening)) => {
            let mut store = store;
            let answer = on_store(trial, &mut store, opening, word, args);
            trial.put_disk(store.into_disk());
            answer
        }
        Err((fault, disk)) => {
            trial.put_disk(disk);
            trial.fault(fault)
        }
    }
}

fn on_store(
    trial: &mut Trial,
    store: &mut Store<MemoryDisk>,
    opening: Opening,
    word: &str,
    args: &mut Args<'_>,
) -> Answer
    requires { opening ≡ store.old.store }
{
    match word {
        "stop" => stop(opening, args, &mut trial.text),
        "stray" => stray(trial, store, args),
        "confirm" => confirm(trial, store, opening, args),
        _ => receipt(trial, store, opening, args),
    }
}

/// A desk over an opening that another desk gave back.
pub fn desk_over(alloc: Global, opening: Opening) -> Option<Desk>
    ensures { IfSome result (λ desk. desk.store ≡ opening) }
{
    let Ok(unused) = Desk::new(alloc, opening) else {
        return None;
    };
    let Ok(desk) = Desk::new(alloc, unused.into_opening()) else {
        return None;
    };
    Some(desk)
}

fn submitted(desk: &mut Desk, edit: Edit) -> Answer
    ensures store { desk.new.store ≡ desk.old.store }
{
    match desk.submit(edit) {
        Ok(ticket) => Answer::Named("ticket", ticket.revision()),
        Err((fault, _)) => refused(fault),
    }
}

// The desk takes an edit.
fn taken(args: &mut Args<'_>, desk: &mut Desk) -> Answer
    ensures store { desk.new.store ≡ desk.old.store }
{
    match edit_of(args) {
        Some(edit) => submitted(desk, edit),
        None => Answer::NotUnderstood,
    }
}

fn drawn(desk: &mut Desk) -> Answer
    ensures { desk.new.store ≡ desk.old.store }
{
    match desk.draw() {
        Ok(Some(draw)) => Answer::Named("drawn", draw.len() as u64),
        Ok(None) => Answer::Word("not now"),
        Err(_) => Answer::NoMemory,
    }
}

// `stop EDIT`: the desk takes the edit, is stopped, is given it once more, and draws.
fn stop(opening: Opening, args: &mut Args<'_>, out: &mut Text) -> Answer {
    match desk_over(args.alloc, opening) {
        Some(desk) => {
            let mut desk = desk;
            tell_stopped(&mut desk, args, out);
            Answer::Text
        }
        None => Answer::NoMemory,
    }
}

fn tell_stopped(desk: &mut Desk, args: &mut Args<'_>, out: &mut Text) {
    taken(args, desk).tell_plain(out);
    out.part();
    stop_desk(desk);
    taken(args, desk).tell_plain(out);
    out.part();
    drawn(desk).tell_plain(out);
}

fn stop_desk(desk: &mut Desk) {
    desk.stop();
}

/// One edit as a batch.
pub fn batch_of(first: u64, args: &mut Args<'_>) -> Option<Draw> {
    let Some(edit) = edit_of(args) else {
        return None;
    };
    let mut edits = Vec::new(args.alloc);
    if edits.push(edit).is_err() {
        args.is_short = true;
    }
    Some(Draw::new(first, edits))
}

/// Stages a batch that no desk drew, where there is room for it.
pub fn staged(store: &mut Store<MemoryDisk>, draw: Draw) -> Result<bool, StoreFault>
    ensures store { store.new.store ≡ store.old.store }
    ensures step { IfOk result (λ is_staged. IsTrue is_staged → store.new.phase ≡ Staged) }
{
    let Phase::Idle = store.phase() else {
        return Ok(false);
    };
    if !store.has_room(&draw) {
        return Ok(false);
    }
    match store.stage(draw) {
        Ok(()) => Ok(true),
        Err((fault, _)) => Err(fault),
    }
}

// `stray FIRST EDIT`: a batch of this edit under this revision is staged.
fn stray(trial: &Trial, store: &mut Store<MemoryDisk>, args: &mut Args<'_>) -> Answer {
    let first = args.number();
    match batch_of(first, args) {
        Some(draw) => stage_stray(trial, store, draw),
        None => Answer::NotUnderstood,
    }
}

fn stage_stray(trial: &Trial, store: &mut Store<MemoryDisk>, draw: Draw) -> Answer {
    match staged(store, draw) {
        Ok(true) => Answer::Word("done"),
        Ok(false) => Answer::Word("no room"),
        Err(fault) => not_done(trial, fault),
    }
}

fn body_synced(store: &mut Store<MemoryDisk>) -> Result<(), StoreFault>
    requires { store.old.phase ≡ Staged }
    ensures store { store.new.store ≡ store.old.store }
    ensures step { OnOk result (store.new.phase ≡ BodySynced) }
{
    store.sync_body()
}

fn gate_opened(store: &mut Store<MemoryDisk>) -> Result<(), StoreFault>
    requires { store.old.phase ≡ BodySynced }
    ensures store { store.new.store ≡ store.old.store }
    ensures step { OnOk result (store.new.phase ≡ GateOpened) }
{
    store.open_gate()
}

fn gate_synced(store: &mut Store<MemoryDisk>) -> Result<Receipt, StoreFault>
    requires { store.old.phase ≡ GateOpened }
    ensures store { store.new.store ≡ store.old.store }
    ensures own { IfOk result (λ receipt. receipt.store ≡ store.new.store) }
{
    store.sync_gate()
}

/// The receipt for a staged batch.
pub fn sealed(store: &mut Store<MemoryDisk>) -> Result<Receipt, StoreFault>
    requires { store.old.phase ≡ Staged }
    ensures store { store.new.store ≡ store.old.store }
    ensures own { IfOk result (λ receipt. receipt.store ≡ store.new.store) }
{
    body_synced(store)?;
    gate_opened(store)?;
    gate_synced(store)
}

/// What a receipt is for, of which the desk may know nothing.
pub fn settled(desk: &mut Desk, receipt: Receipt) -> Answer
    requires { receipt.store ≡ desk.old.store }
    ensures store { desk.new.store ≡ desk.old.store }
{
    match desk.settle(receipt) {
        Ok(()) => Answer::Named("settled", desk.settled_revision()),
        Err((fault, receipt)) => {
            receipt.forgo();
            match fault {
                SettleFault::Stranger => Answer::Word("stranger"),
                SettleFault::Memory => Answer::NoMemory,
            }
        }
    }
}

// `receipt EDIT / EDIT`: the desk draws the first edit, if it is one, the store seals a batch of
// the second, and the desk is given the receipt.
fn receipt(
    trial: &Trial,
    store: &mut Store<MemoryDisk>,
    opening: Opening,
    args: &mut Args<'_>,
) -> Answer
    requires { opening ≡ store.old.store }
{
    let first = opening.revision() + 1;
    match desk_over(trial.alloc, opening) {
        Some(desk) => {
            let mut desk = desk;
            draws(args, &mut desk);
            answer_to(trial, store, &mut desk, first, args)
        }
        None => Answer::NoMemory,
    }
}

/// The desk draws the edit in front of `/`, if it is one. The other one is left.
pub fn draws(args: &mut Args<'_>, desk: &mut Desk)
    ensures { desk.new.store ≡ desk.old.store }
{
    let (own, other) = args.rest.split_once(" / ").unwrap_or((args.rest, ""));
    args.rest = own;
    if own != "nothing" {
        let ticket = taken(args, desk);
        let batch = drawn(desk);
        args.is_short = args.is_short
            || matches!(ticket, Answer::NoMemory)
            || matches!(batch, Answer::NoMemory);
    }
    args.rest = other;
}

// What the desk answers to the receipt for a batch of this edit.
fn answer_to(
    trial: &Trial,
    store: &mut Store<MemoryDisk>,
    desk: &mut Desk,
    first: u64,
    args: &mut Args<'_>,
) -> Answer
    requires { desk.old.store ≡ store.old.store }
{
    match batch_of(first, args) {
        Some(draw) => sealed_and_settled(trial, store, desk, draw),
        None => Answer::NotUnderstood,
    }
}

fn sealed_and_settled(
    trial: &Trial,
    store: &mut Store<MemoryDisk>,
    desk: &mut Desk,
    draw: Draw,
) -> Answer
    requires { desk.old.store ≡ store.old.store }
    ensures store { (store.new.store ≡ store.old.store) × (desk.new.store ≡ desk.old.store) }
{
    match staged(store, draw) {
        Ok(true) => answer_to_staged(trial, store, desk),
        Ok(false) => Answer::Word("no room"),
        Err(fault) => not_done(trial, fault),
    }
}

fn answer_to_staged(trial: &Trial, store: &mut Store<MemoryDisk>, desk: &mut Desk) -> Answer
    requires one { desk.old.store ≡ store.old.store }
    requires staged { store.old.phase ≡ Staged }
    ensures store { (store.new.store ≡ store.old.store) × (desk.new.store ≡ desk.old.store) }
{
    match sealed(store) {
        Ok(receipt) => {
            store.confirm(&receipt);
            settled(desk, receipt)
        }
        Err(fault) => not_done(trial, fault),
    }
}
