//! A file that is held open, while others come to it.

use crate::text::bytes_of;
use crate::trial::{Answer, Fault};
use fp_disk::{Disk, DiskFault};
use fp_files::{DiskFiles, SystemDisk, SystemFiles};
use fp_transcript::Args;
use log::Log;
use std::fs::File;
use std::rt::Files;

/// The disk at a path, as long as it is held.
#[derive(Drop)]
pub struct HeldFile<'a, R> {
    files: SystemFiles<&'a R>,
    path: String,
    disk: SystemDisk<&'a R>,
}

/// `held create NAME`, `held open NAME`, `held read NAME`: the file is opened so, and held where
/// none is. `held write AT BYTES`: on the disk that is held. `held close`: it is closed.
pub fn on_held<'a, R: Files<File = File> + Log>(
    rt: &'a R,
    held: &mut Option<HeldFile<'a, R>>,
    args: &mut Args<'_>,
) -> Answer {
    match args.word() {
        "close" => close(held.take()),
        "write" => match held {
            Some(file) => write(file, args),
            None => Answer::NotUnderstood,
        },
        word => hold(rt, held, word, args),
    }
}

fn hold<'a, R: Files<File = File> + Log>(
    rt: &'a R,
    held: &mut Option<HeldFile<'a, R>>,
    word: &str,
    args: &Args<'_>,
) -> Answer {
    let mut files = SystemFiles::of(rt);
    let disk = match opened(&mut files, word, args.rest) {
        Ok(disk) => disk,
        Err(DiskFault::Device) => return Answer::Fault(Fault::Device),
    };
    let Ok(path) = String::from_str(args.alloc, args.rest) else {
        return Answer::NoMemory;
    };
    if held.is_none() {
        *held = Some(HeldFile { files, path, disk });
    }
    Answer::Done
}

fn opened<'a, R: Files<File = File> + Log>(
    files: &mut SystemFiles<&'a R>,
    word: &str,
    path: &str,
) -> Result<SystemDisk<&'a R>, DiskFault> {
    match word {
        "create" => files.create(path),
        "read" => files.open_read_only(path),
        _ => files.open(path),
    }
}

fn write<R: Log>(file: &mut HeldFile<'_, R>, args: &mut Args<'_>) -> Answer {
    let at = args.number();
    match file.disk.write_at(at, &bytes_of(args)) {
        Ok(()) => Answer::Done,
        Err(DiskFault::Device) => Answer::Fault(Fault::Device),
    }
}

fn close<R: Files<File = File> + Log>(held: Option<HeldFile<'_, R>>) -> Answer {
    let Some(file) = held else {
        return Answer::NotUnderstood;
    };
    let HeldFile {
        mut files,
        path,
        disk,
    } = file;
    files.close(path.as_str(), disk);
    Answer::Done
}
