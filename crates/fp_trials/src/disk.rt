//! Commands on a disk's bytes, its faults and its crashes.

ghost use Rattle.std.specs.Prelude.{◌≤◌, ◌+◌};

use crate::text::{bytes_of, fill_of};
use crate::trial::{Answer, Fault, Trial};
use fp_disk::{Call, Choice, Disk, DiskFault, FailedWrite, Failing, Fill, Progress, Request};
use fp_transcript::{Args, Text};
use std::alloc::Global;

/// `hold BYTES`, `write AT BYTES`, `read AT LENGTH`, `text AT LENGTH`, `len`, `sync`,
/// `cut LENGTH`, `keep`, `back`.
pub fn on_bytes(trial: &mut Trial, word: &str, args: &mut Args<'_>) -> Answer {
    match word {
        "hold" => trial.hold(bytes_of(args)),
        "write" => write(trial, args),
        "read" | "text" => read(trial, word, args),
        "len" => len(trial),
        "sync" => sync(trial),
        "cut" => cut(trial, args),
        "keep" => keep(trial),
        _ => back(trial),
    }
}

fn cut(trial: &mut Trial, args: &mut Args<'_>) -> Answer {
    match trial.bytes() {
        Some(bytes) => {
            let mut bytes = bytes;
            bytes.truncate(args.number() as usize);
            trial.hold(bytes)
        }
        None => Answer::NoMemory,
    }
}

fn keep(trial: &mut Trial) -> Answer {
    match trial.bytes() {
        Some(bytes) => {
            trial.kept = bytes;
            Answer::Done
        }
        None => Answer::NoMemory,
    }
}

fn back(trial: &mut Trial) -> Answer {
    match trial.kept.to_vec(trial.alloc) {
        Ok(bytes) => trial.hold(bytes),
        Err(_) => Answer::NoMemory,
    }
}

fn write_at(trial: &mut Trial, at: u64, bytes: &[u8]) -> Result<(), DiskFault> {
    let mut disk = trial.take_disk();
    let outcome = disk.write_at(at, bytes);
    trial.put_disk(disk);
    outcome
}

// No memory reaches behind this place, so a write there fails whatever memory there is.
const FARTHEST: u64 = 1 << 62;

fn write(trial: &mut Trial, args: &mut Args<'_>) -> Answer {
    let at = args.number();
    let bytes = bytes_of(args);
    match write_at(trial, at, &bytes) {
        Ok(()) => Answer::Done,
        Err(_) if at > FARTHEST => Answer::Fault(Fault::Device),
        Err(_) => trial.fault(Fault::Device),
    }
}

// The part of a disk of so many bytes that begins there, cut at its end: its place and its length.
fn clipped(at: u64, length: u64, end: u64) -> (u64, u64)
    ensures { result.0 + result.1 ≤ end }
{
    if at > end {
        return (end, 0);
    }
    (at, length.min(end - at))
}

// So many bytes from a place on, or those that are there.
fn read_from<D: Disk>(alloc: Global, disk: &mut D, at: u64, length: u64) -> Result<Vec<u8>, Fault>
    requires { D.honest disk.old }
{
    let Ok(end) = disk.len() else {
        return Err(Fault::Device);
    };
    let (at, length) = clipped(at, length, end);
    let Ok(mut bytes) = vec![in alloc; 0u8; length as usize] else {
        return Err(Fault::Memory);
    };
    match disk.read_at(at, &mut bytes) {
        Ok(()) => Ok(bytes),
        Err(_) => Err(Fault::Device),
    }
}

fn read(trial: &mut Trial, word: &str, args: &mut Args<'_>) -> Answer {
    let at = args.number();
    let length = args.number();
    let mut disk = trial.take_disk();
    let found = read_from(trial.alloc, &mut disk, at, length);
    trial.put_disk(disk);
    match found {
        Ok(bytes) => say_bytes(word, &bytes, &mut trial.text),
        Err(fault) => trial.fault(fault),
    }
}

fn say_bytes(word: &str, bytes: &[u8], out: &mut Text) -> Answer {
    if bytes.is_empty() {
        return Answer::Word("nothing");
    }
    if word == "text" {
        out.bytes(bytes);
    } else {
        out.digits(bytes);
    }
    Answer::Text
}

fn len(trial: &mut Trial) -> Answer {
    let mut disk = trial.take_disk();
    let outcome = disk.len();
    trial.put_disk(disk);
    match outcome {
        Ok(length) => Answer::Number(length),
        Err(_) => trial.fault(Fault::Device),
    }
}

fn sync(trial: &mut Trial) -> Answer {
    let mut disk = trial.take_disk();
    let outcome = disk.sync();
    trial.put_disk(disk);
    match outcome {
        Ok(_) => Answer::Done,
        Err(_) => trial.fault(Fault::Device),
    }
}

/// `fuse CALL`, `fuse CALL half`, `fail CALL`, `fail CALL half`, `calm`,
/// `crash LENGTH REST FILL ..`, `calls`.
pub fn on_faults(trial: &mut Trial, word: &str, args: &mut Args<'_>) -> Answer {
    match word {
        "fuse" => fail(trial, Failing::From(args.number()), args),
        "fail" => fail(trial, Failing::At(args.number()), args),
        "calm" => fail(trial, Failing::Never, args),
        "crash" => crash(trial, args),
        _ => calls(trial),
    }
}

// These calls of the disk fail.
fn fail(trial: &mut Trial, failing: Failing, args: &mut Args<'_>) -> Answer {
    trial.set_failing(failing, failed_write(args.rest));
    Answer::Done
}

/// What a write does that fails: `half`, or nothing.
pub fn failed_write(word: &str) -> FailedWrite {
    if word == "half" {
        FailedWrite::Half
    } else {
        FailedWrite::Nothing
    }
}

fn crash(trial: &mut Trial, args: &mut Args<'_>) -> Answer {
    let length = left_length(args);
    let rest = fill_of(args);
    let writes = fills(args);
    crash_as(
        trial,
        Choice {
            length,
            writes: &writes,
            rest,
        },
    )
}

fn left_length(args: &mut Args<'_>) -> u64 {
    match args.word() {
        "least" => 0,
        "most" => u64::MAX,
        word => args.number_of(word),
    }
}

// A crash has at most so many pending writes.
const MOST_WRITES: u64 = 64;

fn fills(args: &mut Args<'_>) -> Vec<Fill> {
    let mut writes = Vec::new(args.alloc);
    for _ in 0..MOST_WRITES {
        if args.rest.is_empty() {
            break;
        }
        let fill = fill_of(args);
        if writes.push(fill).is_err() {
            args.is_short = true;
        }
    }
    writes
}

/// The disk is what a crash leaves of it.
pub fn crash_as(trial: &mut Trial, choice: Choice<'_>) -> Answer {
    match trial.take_disk().crash(choice) {
        Ok(left) => {
            trial.put_disk(left);
            trial.is_failing = false;
            Answer::Done
        }
        Err(_) => Answer::NoMemory,
    }
}

fn calls(trial: &mut Trial) -> Answer {
    let disk = trial.take_disk();
    for call in disk.calls() {
        tell_call(call, &mut trial.text);
    }
    trial.put_disk(disk);
    Answer::Text
}

fn tell_call(call: &Call, out: &mut Text) {
    out.part();
    match &call.request {
        Request::Len => out.push("len"),
        Request::Read { at, length } => tell_place("read", *at, *length, out),
        Request::Write { at, bytes } => tell_place("write", *at, bytes.as_slice().len(), out),
        Request::Sync => out.push("sync"),
    }
    match call.progress {
        Progress::Whole => {}
        Progress::Half => out.push(" half"),
        Progress::Nothing => out.push(" failed"),
    }
}

fn tell_place(name: &str, at: u64, length: usize, out: &mut Text) {
    out.named(name, at);
    out.push(" ");
    out.number(length as u64);
}
