//! What was sealed and what was told, confirmed behind calls that may fail.

ghost use Rattle.std.specs.Prelude.{◌≡◌, IfOk};

use crate::event::{next_step, not_done};
use crate::parts::{batch_of, desk_over, draws, sealed, settled, staged};
use crate::trial::{Answer, Trial};
use fp_desk::Desk;
use fp_disk::MemoryDisk;
use fp_group_commit::{Opening, Receipt, Store, StoreFault};
use fp_transcript::{Args, Text};

// The receipt for this edit as a batch. What can't be staged is a stranger.
fn sealed_edit(
    store: &mut Store<MemoryDisk>,
    first: u64,
    args: &mut Args<'_>,
) -> Result<Receipt, StoreFault>
    ensures store { store.new.store ≡ store.old.store }
    ensures own { IfOk result (λ receipt. receipt.store ≡ store.new.store) }
{
    let Some(draw) = batch_of(first, args) else {
        return Err(StoreFault::Stranger);
    };
    if !staged(store, draw)? {
        return Err(StoreFault::Stranger);
    }
    sealed(store)
}

// What the next step of a compaction is answered.
fn compacted(trial: &Trial, store: &mut Store<MemoryDisk>) -> Answer
    ensures store { store.new.store ≡ store.old.store }
{
    if !store.may_compact() {
        return Answer::Word("not now");
    }
    match store.compact_step() {
        Ok(next) => Answer::Word(next_step(next)),
        Err(fault) => not_done(trial, fault),
    }
}

// What the edit as another batch is answered.
fn sealed_again(
    trial: &Trial,
    store: &mut Store<MemoryDisk>,
    first: u64,
    args: &mut Args<'_>,
) -> Answer
    ensures store { store.new.store ≡ store.old.store }
{
    match sealed_edit(store, first, args) {
        Ok(receipt) => {
            receipt.forgo();
            Answer::Named("sealed", first)
        }
        Err(fault) => not_done(trial, fault),
    }
}

fn put_answer(answer: Answer, out: &mut Text) {
    out.part();
    answer.tell_plain(out);
}

// Three steps of a compaction, and the edit as another batch.
fn goes_on(trial: &mut Trial, store: &mut Store<MemoryDisk>, first: u64, args: &mut Args<'_>)
    ensures store { store.new.store ≡ store.old.store }
{
    put_answer(compacted(trial, store), &mut trial.text);
    put_answer(compacted(trial, store), &mut trial.text);
    put_answer(compacted(trial, store), &mut trial.text);
    put_answer(sealed_again(trial, store, first, args), &mut trial.text);
}

// What was sealed is confirmed whatever becomes of the store behind it, and is settled, and what is
// told then is confirmed too.
fn confirmed(
    trial: &mut Trial,
    store: &mut Store<MemoryDisk>,
    desk: &mut Desk,
    receipt: Receipt,
    args: &mut Args<'_>,
) -> Answer
    requires one { desk.old.store ≡ store.old.store }
    requires own { receipt.store ≡ store.old.store }
{
    let next = receipt.revision().saturating_add(1);
    goes_on(trial, store, next, args);
    store.confirm(&receipt);
    put_answer(settled(desk, receipt), &mut trial.text);
    store.confirm_told(&desk.told());
    Answer::Text
}

fn confirm_first(
    trial: &mut Trial,
    store: &mut Store<MemoryDisk>,
    desk: &mut Desk,
    first: u64,
    args: &mut Args<'_>,
) -> Answer
    requires { desk.old.store ≡ store.old.store }
{
    match sealed_edit(store, first, args) {
        Ok(receipt) => confirmed(trial, store, desk, receipt, args),
        Err(fault) => not_done(trial, fault),
    }
}

/// `confirm EDIT / EDIT`: the desk draws the first edit and the store seals the second; then it takes
/// three steps of a compaction and seals the second once more, which may fail. The receipt and what
/// is told are confirmed behind that.
pub fn confirm(
    trial: &mut Trial,
    store: &mut Store<MemoryDisk>,
    opening: Opening,
    args: &mut Args<'_>,
) -> Answer
    requires { opening ≡ store.old.store }
{
    let first = opening.revision() + 1;
    match desk_over(trial.alloc, opening) {
        Some(desk) => {
            let mut desk = desk;
            draws(args, &mut desk);
            confirm_first(trial, store, &mut desk, first, args)
        }
        None => Answer::NoMemory,
    }
}
