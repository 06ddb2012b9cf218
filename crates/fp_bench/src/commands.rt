//! The program's commands over a disk, each with what it writes.

use crate::disk::PlainDisk;
use crate::job::Job;
use fp_commands::{CommandFault, apply_disk, import_disk, show_disk};
use fp_streams::FailureCounted;

/// `apply`, of these lines.
pub fn applied(job: &mut Job, lines: &[u8], disk: PlainDisk) -> PlainDisk {
    let mut reader = FailureCounted::new(lines);
    let mut writer = FailureCounted::new(Vec::new(job.alloc));
    let (disk, outcome) = apply_disk(job.alloc, &mut reader, &mut writer, disk);
    job.digest.bytes(writer.get_ref());
    if !matches!(outcome, Ok(true)) {
        job.digest.fail();
    }
    disk
}

fn import(
    job: &mut Job,
    document: &[u8],
    disk: PlainDisk,
) -> (PlainDisk, Result<bool, CommandFault>) {
    let mut reader = FailureCounted::new(document);
    let mut writer = FailureCounted::new(Vec::new(job.alloc));
    let (disk, outcome) = import_disk(job.alloc, &mut reader, &mut writer, disk);
    job.digest.bytes(writer.get_ref());
    (disk, outcome)
}

/// `import`, of this document.
pub fn imported(job: &mut Job, document: &[u8], disk: PlainDisk) -> PlainDisk {
    let (disk, outcome) = import(job, document, disk);
    if !matches!(outcome, Ok(true)) {
        job.digest.fail();
    }
    disk
}

/// `import`, of a document that may be at fault: what is said of it is an answer.
pub fn offered(job: &mut Job, document: &[u8], disk: PlainDisk) -> PlainDisk {
    let (disk, outcome) = import(job, document, disk);
    match outcome {
        Ok(is_kept) => job.digest.number(u64::from(is_kept)),
        Err(fault) => match format!(in job.alloc; "{fault}") {
            Ok(text) => job.digest.bytes(text.as_bytes()),
            Err(_) => job.digest.fail(),
        },
    }
    disk
}

/// `show`.
pub fn shown(job: &mut Job, disk: PlainDisk) -> PlainDisk {
    let mut writer = FailureCounted::new(Vec::new(job.alloc));
    let (disk, outcome) = show_disk(job.alloc, &mut writer, disk);
    job.digest.bytes(writer.get_ref());
    if outcome.is_err() {
        job.digest.fail();
    }
    disk
}
