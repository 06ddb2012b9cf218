//! A world on the disk in memory: how it is made and opened, and the flags
//! that the disk stands for.

ghost use Rattle.std.specs.Prelude.{◌≡◌, IfOk};
ghost use Rattle.fp_group_commit.specs.Store.{IsFresh};

use crate::trial::{Answer, Fault, Held, OpenWorld, Trial};
use fp_committer::Committer;
use fp_disk::MemoryDisk;
use fp_edit::FlagSet;
use fp_group_commit::{CreateFault, Opening, Store};
use fp_layout::Place;
use fp_recovery::recover;
use fp_transcript::{Args, Text};
use std::alloc::Global;

/// A store as it was made or opened, and its opening.
pub type Begun = (Store<MemoryDisk>, Opening);

/// `create SIZE`, `open`, `close`, `recover`, `show`, `marks`, `size`, `room`.
pub fn on_world(trial: &mut Trial, word: &str, args: &mut Args<'_>) -> Answer {
    match word {
        "create" => create(trial, args.number()),
        "close" => close(trial),
        "recover" => recovered(trial),
        _ => opened(trial, word),
    }
}

// What the disk stands for, and where, by the call that changes nothing.
fn recovered(trial: &mut Trial) -> Answer {
    let mut disk = trial.take_disk();
    let found = place_of(trial.alloc, &mut disk);
    trial.put_disk(disk);
    match found {
        Ok((revision, place)) => say_place(revision, place, &mut trial.text),
        Err(fault) => trial.fault(fault),
    }
}

// The revision of the set that a disk stands for, and where the disk goes on.
fn place_of(alloc: Global, disk: &mut MemoryDisk) -> Result<(u64, Place), Fault> {
    match recover(alloc, disk) {
        Ok((set, place)) => Ok((set.revision(), place)),
        Err(fault) => Err(fault.into()),
    }
}

fn say_place(revision: u64, place: Place, out: &mut Text) -> Answer {
    out.named("revision", revision);
    out.named(" in the slot at", place.slot.start);
    out.named(", gate at", place.gate);
    Answer::Text
}

fn close(trial: &mut Trial) -> Answer {
    let disk = trial.take_disk();
    trial.put_disk(disk);
    Answer::Done
}

// A store on a new disk, and its opening.
#[tactic(auto, using(crate::proofs::Fresh::at_its_start))]
fn made(alloc: Global, disk: MemoryDisk, size: u64) -> Result<Begun, (CreateFault, MemoryDisk)>
    ensures opening { IfOk result (λ r. r.1 ≡ r.0.store) }
    ensures fresh { IfOk result (λ r. IsFresh r.0 r.0.store.start) }
{
    Store::create(alloc, disk, size)
}

fn create(trial: &mut Trial, size: u64) -> Answer {
    let disk = trial.take_disk();
    match made(trial.alloc, disk, size) {
        Ok((store, opening)) => enter(trial, store, opening, Answer::Revision(0)),
        Err((fault, disk)) => {
            trial.put_disk(disk);
            not_made(trial, fault)
        }
    }
}

fn not_made(trial: &Trial, fault: CreateFault) -> Answer {
    match fault {
        CreateFault::BadSize => Answer::Word("no size of a slot"),
        CreateFault::NotEmpty => Answer::Fault(Fault::NotEmpty),
        CreateFault::Device => trial.fault(Fault::Device),
        CreateFault::Memory => Answer::NoMemory,
    }
}

/// `open`: the revision of what the disk stands for.
pub fn open(trial: &mut Trial) -> Answer {
    opened(trial, "open")
}

/// The bytes from the last closed gate to the slot's end; none where the disk isn't opened.
pub fn room(trial: &mut Trial) -> u64 {
    match opened(trial, "room") {
        Answer::Number(room) => room,
        _ => 0,
    }
}

/// The store on a disk, and its opening.
pub fn found(alloc: Global, disk: MemoryDisk) -> Result<Begun, (Fault, MemoryDisk)>
    ensures opening { IfOk result (λ r. r.1 ≡ r.0.store) }
    ensures fresh { IfOk result (λ r. IsFresh r.0 r.0.store.start) }
{
    match Store::open(alloc, disk) {
        Ok(begun) => Ok(begun),
        Err((fault, disk)) => Err((fault.into(), disk)),
    }
}

// Opens the disk anew, and tells what is asked of it.
fn opened(trial: &mut Trial, word: &str) -> Answer {
    let disk = trial.take_disk();
    match found(trial.alloc, disk) {
        Ok((store, opening)) => {
            let answer = told(word, opening.set(), store.room(), &mut trial.text);
            enter(trial, store, opening, answer)
        }
        Err((fault, disk)) => {
            trial.put_disk(disk);
            trial.fault(fault)
        }
    }
}

// Goes on with a world over this store, and answers this.
fn enter(trial: &mut Trial, store: Store<MemoryDisk>, opening: Opening, answer: Answer) -> Answer
    requires opening { opening ≡ store.store }
    requires fresh { IsFresh store store.store.start }
{
    match Committer::new(trial.alloc, store, opening) {
        Ok(world) => {
            trial.held = Held::Open(OpenWorld { world });
            answer
        }
        Err((_, store, _)) => {
            trial.put_disk(store.into_disk());
            Answer::NoMemory
        }
    }
}

fn told(word: &str, set: &FlagSet, room: u64, out: &mut Text) -> Answer {
    match word {
        "open" => Answer::Revision(set.revision()),
        "show" => show(set, out),
        "marks" => marks(set, out),
        "size" => Answer::Number(set.size()),
        _ => Answer::Number(room),
    }
}

// The document of a set.
fn show(set: &FlagSet, out: &mut Text) -> Answer {
    match set.document() {
        Ok(document) => {
            out.bytes(&document);
            Answer::Text
        }
        Err(_) => Answer::NoMemory,
    }
}

// The revisions that changed the flags last, in the order of their keys.
fn marks(set: &FlagSet, out: &mut Text) -> Answer {
    for (key, flag) in set.iter() {
        out.part();
        out.named(key.as_str(), flag.changed);
    }
    Answer::Text
}
