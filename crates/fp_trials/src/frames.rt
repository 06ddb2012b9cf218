//! Frames to a stream that takes several texts by one call, as a socket does.

ghost use Rattle.std.specs.Io.{WritesAtMost};

use crate::text::bytes_of;
use crate::trial::{Answer, Trial};
use fp_stream::{MOST_BODY, write_frame};
use fp_streams::{FailureCounted, WriteGathered};
use fp_transcript::{Args, Text};
use std::alloc::Global;
use std::io;
use std::io::{ErrorKind, IoSlice, Write};

// What becomes of a stream's calls.
#[derive(Clone, Copy, Drop)]
enum Course {
    // Each takes all.
    Whole,
    // Each takes so many bytes at most.
    By(usize),
    // The same, and each other one is interrupted, from the first on.
    Interrupted(usize),
    // So many bytes are taken, and then they fail.
    Full(usize),
    // All is taken, and it fails as it is flushed.
    Unflushed,
}

fn course_of(args: &mut Args<'_>) -> Option<Course> {
    match args.word() {
        "whole" => Some(Course::Whole),
        "by" => Some(Course::By(args.number() as usize)),
        "interrupted" => Some(Course::Interrupted(args.number() as usize)),
        "full" => Some(Course::Full(args.number() as usize)),
        "unflushed" => Some(Course::Unflushed),
        _ => None,
    }
}

// A stream that notes of each call how many bytes it took of how many, and keeps them.
#[derive(Drop)]
struct Socket {
    alloc: Global,
    course: Course,
    was_interrupted: bool,
    calls: Text,
    taken: Vec<u8>,
}

impl Socket {
    // Whether this call is interrupted.
    fn is_interrupted(&mut self) -> bool {
        let Course::Interrupted(_) = self.course else {
            return false;
        };
        self.was_interrupted = !self.was_interrupted;
        self.was_interrupted
    }

    // How many bytes the next call takes at most.
    fn most(&self) -> usize {
        match self.course {
            Course::Whole | Course::Unflushed => usize::MAX,
            Course::By(most) | Course::Interrupted(most) => most,
            Course::Full(room) => room.saturating_sub(self.taken.len()),
        }
    }

    fn take(&mut self, call: &str, bytes: &[u8]) -> io::Result<usize>
        ensures { WritesAtMost result bytes.now }
    {
        self.calls.part();
        if self.is_interrupted() {
            self.calls.push("interrupted");
            return Err(ErrorKind::Interrupted.into());
        }
        let count = bytes.len().min(self.most());
        self.calls.named(call, count as u64);
        self.calls.named(" of", bytes.len() as u64);
        if self.taken.extend_from_slice(&bytes[..count]).is_err() {
            self.calls.is_short = true;
        }
        match self.course {
            Course::Full(_) if count == 0 => Err(ErrorKind::StorageFull.into()),
            _ => Ok(count),
        }
    }
}

impl Write for Socket {
    fn write(&mut self, buf: &[u8]) -> io::Result<usize> {
        self.take("write", buf)
    }

    fn flush(&mut self) -> io::Result<()> {
        self.calls.part();
        self.calls.push("flush");
        match self.course {
            Course::Unflushed => Err(ErrorKind::StorageFull.into()),
            _ => Ok(()),
        }
    }
}

impl WriteGathered for Socket {
    fn write_gathered(&mut self, texts: &[IoSlice<'_>]) -> io::Result<usize> {
        let mut all = Vec::new(self.alloc);
        let Ok(count) = all.write_vectored(texts) else {
            self.calls.is_short = true;
            return Err(ErrorKind::OutOfMemory.into());
        };
        let taken = self.take("gathered", &all)?;
        Ok(taken.min(count))
    }
}

/// `frame REVISION COURSE BYTES`: what a stream has of the frame of this document, of which COURSE
/// becomes: `whole`, `by COUNT`, `interrupted COUNT`, `full COUNT`, `unflushed`.
pub fn on_frame(trial: &mut Trial, args: &mut Args<'_>) -> Answer {
    let revision = args.number();
    let Some(course) = course_of(args) else {
        return Answer::NotUnderstood;
    };
    let document = bytes_of(args);
    if document.len() > MOST_BODY {
        return Answer::NotUnderstood;
    }
    let mut writer = FailureCounted::new(Socket {
        alloc: trial.alloc,
        course,
        was_interrupted: false,
        calls: Text::new(trial.alloc),
        taken: Vec::new(trial.alloc),
    });
    let is_sent = write_frame(&mut writer, revision, &document).is_ok();
    tell(trial, writer.into_inner(), is_sent)
}

// The bytes that a stream has, many of them by their number, and whether it failed.
fn tell(trial: &mut Trial, socket: Socket, is_sent: bool) -> Answer {
    let Socket {
        alloc: _,
        course: _,
        was_interrupted: _,
        calls,
        taken,
    } = socket;
    if calls.is_short {
        return Answer::NoMemory;
    }
    trial.turns = calls;
    if taken.len() > 200 {
        trial.text.number(taken.len() as u64);
        trial.text.push(" bytes");
    } else {
        trial.text.digits(&taken);
    }
    if is_sent {
        return Answer::Text;
    }
    trial.text.end_line();
    trial.text.push("device fault");
    Answer::Stopped
}
