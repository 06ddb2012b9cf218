//! The program's words for the service, over a disk in memory.

use crate::log_file::put_line;
use crate::running::{DiskPlan, PATH, new_disk};
use fp_disk::Disk;
use fp_files::SingleFile;
use fp_server::{Host, attend};
use fp_streams::FailureCounted;
use fp_transcript::Text;
use std::alloc::AllocGlobal;

/// What the words ask of the service, over a new disk and an input that is at its end: what was
/// said, but for ports, what the error stream was told, and the status.
pub fn attended<R: Host>(rt: &R, words: &[String], out: &mut Text) {
    let alloc = rt.alloc();
    match (
        new_disk(alloc, DiskPlan::plain()),
        String::from_str(alloc, PATH),
    ) {
        (Some(disk), Ok(path)) => over(rt, SingleFile::new(path, disk), words, out),
        _ => out.is_short = true,
    }
}

fn over<R, D>(rt: &R, files: SingleFile<D>, words: &[String], out: &mut Text)
where
    R: Host,
    D: Disk + Drop + Send + 'static,
{
    let alloc = rt.alloc();
    let mut files = files;
    let input: &[u8] = &[];
    let mut r = FailureCounted::new(input);
    let mut w = FailureCounted::new(Vec::new(alloc));
    let mut e = FailureCounted::new(Vec::new(alloc));
    let status = attend(rt, &mut files, words, &mut r, &mut w, &mut e);
    put(&w.into_inner(), "", out);
    put(&e.into_inner(), "told ", out);
    out.end_line();
    match status {
        Some(status) => out.named("status", u64::from(status)),
        None => out.push("none"),
    }
}

// What was written on a stream, each line behind a word.
fn put(written: &[u8], word: &str, out: &mut Text) {
    let mut text = out.another();
    text.bytes(written);
    for line in text.as_str().lines() {
        out.end_line();
        out.push(word);
        put_line(line, out);
    }
    out.is_short = out.is_short || text.is_short;
}
