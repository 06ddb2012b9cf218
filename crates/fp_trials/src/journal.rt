//! Chains and journals in slots of a few bytes.

ghost use Rattle.std.specs.Prelude.{◌≡◌, ◌≤◌, ◌<◌, ◌+◌, ◌^◌, length, IfOk, OnOk};
ghost use Rattle.fp_disk.specs.Crashes.{SameHonesty};
ghost use Rattle.fp_disk.specs.Outcomes.{all_synced};
ghost use Rattle.fp_journal.specs.State.{room};
ghost use Rattle.fp_journal.specs.declared.journal.Phase.TheVariants.{Idle};

use crate::text::bytes_of;
use crate::trial::{Answer, Fault, Trial};
use fp_disk::{Disk, DiskFault, MemoryDisk};
use fp_journal::{
    BodyFault, ChainFault, Framed, Journal, Phase, Reader, Slot, Text, read_bytes, read_chain,
    resume,
};
use fp_transcript::Args;
use std::alloc::{AllocError, Global};

/// `chain STOP MOST BYTES`, `slot START STOP MOST AT [BODY]`.
pub fn on_slots(trial: &mut Trial, word: &str, args: &mut Args<'_>) -> Answer {
    match word {
        "chain" => chain(trial.alloc, args),
        _ => in_slot(trial, args),
    }
}

// Seals a body by four calls, or as many of them as the disk does.
fn sealed<D: Disk>(journal: &mut Journal<D>, framed: Framed) -> Result<(), DiskFault>
    requires idle { journal.old.phase ≡ Idle }
    requires short { length framed ≤ journal.old.slot.most }
    requires room { length framed + 6 ≤ room journal.old }
{
    journal.stage(framed)?;
    let body = journal.sync()?;
    journal.body_synced(body);
    journal.open_gate()?;
    let gate = journal.sync()?;
    journal.gate_synced(gate);
    Ok(())
}

// Whether there is room for a body. Then it is sealed, if the disk lets it.
fn sent(journal: &mut Journal<MemoryDisk>, framed: Framed) -> bool {
    let Slot {
        start: _,
        stop: _,
        most,
    } = journal.slot();
    let Phase::Idle = journal.phase() else {
        return false;
    };
    if framed.cost() > journal.room() || framed.cost() > u64::from(most) + 6 {
        return false;
    }
    let _ = sealed(journal, framed);
    true
}

// Takes each body but one that begins with 255.
#[derive(Drop)]
struct Bodies;

impl Reader for Bodies {
    ghost takes = { λ _ _ _. Unit {0} };

    ghost refuses = { λ _ _ _. Unit {0} };

    fn take(&mut self, body: &[u8]) -> Result<(), BodyFault> {
        if !body.is_empty() && body[0] == 255 {
            return Err(BodyFault::BadBody { at: 0 });
        }
        Ok(())
    }
}

// Makes sure of a disk, and asks how many bytes it has.
fn synced_len<D: Disk>(disk: &mut D) -> Result<u64, DiskFault>
    ensures long { D.honest disk.old → IfOk result (λ n. n ≡ length (D.bytes disk.new)) }
    ensures all_synced { D.honest disk.old →
        OnOk result (D.unsynced disk.new ≡ all_synced (D.bytes disk.new)) }
    ensures honest { SameHonesty D.Disk disk.old disk.new }
{
    disk.sync()?;
    let len = disk.len()?;
    Ok(len)
}

// A journal in a slot of the disk, behind the chain that begins at this place.
fn journal_in<D: Disk>(
    alloc: Global,
    mut disk: D,
    slot: Slot,
    at: u64,
) -> Result<Journal<D>, (Fault, D)> {
    let Ok(len) = synced_len(&mut disk) else {
        return Err((Fault::Device, disk));
    };
    if at < slot.start || at > len {
        return Err((Fault::Damaged(at), disk));
    }
    let Ok(front) = read_bytes(alloc, &mut disk, slot.start, (at - slot.start) as usize) else {
        return Err((Fault::Device, disk));
    };
    match resume(alloc, disk, slot, at, len, Text::new(&front), &mut Bodies) {
        Ok(journal) => Ok(journal),
        Err((ChainFault::Damaged { at }, disk)) => Err((Fault::Damaged(at), disk)),
        Err((ChainFault::Device, disk)) => Err((Fault::Device, disk)),
        Err((ChainFault::Memory, disk)) => Err((Fault::Memory, disk)),
    }
}

// `slot START STOP MOST AT BODY`: seals a body, if one is there, and answers the room that is left.
fn in_slot(trial: &mut Trial, args: &mut Args<'_>) -> Answer {
    let start = args.number();
    let slot = slot_from(start, args);
    let at = args.number();
    let body = bytes_of(args);
    if body.len() > 1 << 30 {
        return Answer::NotUnderstood;
    }
    let disk = trial.take_disk();
    match journal_in(trial.alloc, disk, slot, at) {
        Ok(journal) => in_journal(trial, journal, &body),
        Err((fault, disk)) => {
            trial.put_disk(disk);
            trial.fault(fault)
        }
    }
}

// A slot from this place on: `STOP MOST`.
fn slot_from(start: u64, args: &mut Args<'_>) -> Slot {
    let stop = args.number();
    let most = args.number().min(0xffff_ffff) as u32;
    Slot { start, stop, most }
}

// Seals the body, if one is there, and goes on with the disk.
fn in_journal(trial: &mut Trial, journal: Journal<MemoryDisk>, body: &[u8]) -> Answer
    requires { length body.now < 2 ^ 32 }
{
    let mut journal = journal;
    let has_room = sent_if_any(trial.alloc, &mut journal, body);
    let (phase, room) = (journal.phase(), journal.room());
    trial.put_disk(journal.into_disk());
    match (phase, has_room) {
        (Phase::Idle, Ok(true)) => Answer::Number(room),
        (Phase::Idle, Ok(false)) => Answer::Word("no room"),
        (Phase::Idle, Err(_)) => Answer::NoMemory,
        _ if trial.is_failing => Answer::Fault(Fault::StoreFailed),
        _ => Answer::NoMemory,
    }
}

fn sent_if_any(
    alloc: Global,
    journal: &mut Journal<MemoryDisk>,
    body: &[u8],
) -> Result<bool, AllocError>
    requires { length body.now < 2 ^ 32 }
{
    if body.is_empty() {
        return Ok(true);
    }
    Ok(sent(journal, Framed::new(alloc, body)?))
}

// The place of the closed gate behind the chain that begins with these bytes, in a slot that ends
// at this place and whose bodies have so many bytes at most.
fn chain(alloc: Global, args: &mut Args<'_>) -> Answer {
    let slot = slot_from(0, args);
    let Ok(mut disk) = MemoryDisk::holding(alloc, bytes_of(args)) else {
        return Answer::NoMemory;
    };
    chain_in(alloc, &mut disk, slot)
}

// The place of the closed gate behind the chain that a disk begins with.
fn chain_in<D: Disk>(alloc: Global, disk: &mut D, slot: Slot) -> Answer {
    let Ok(len) = disk.len() else {
        return Answer::Fault(Fault::Device);
    };
    match read_chain(alloc, disk, 0, slot, len, &mut Bodies, &mut Text::new(&[])) {
        Ok(end) => Answer::Number(end),
        Err(ChainFault::Damaged { at }) => Answer::Fault(Fault::Damaged(at)),
        Err(ChainFault::Device) => Answer::Fault(Fault::Device),
        Err(ChainFault::Memory) => Answer::NoMemory,
    }
}
