//! A file or a stream whose failures are told.

ghost use Rattle.std.specs.Prelude.{◌≡◌};

use crate::event::{Event, Source, tell_failure};
use log::Log;
use std::fs::{Metadata, OpenFile};
use std::io;
use std::io::{ErrorKind, Read, Seek, SeekFrom, Write};

/// A file or a stream. Each call of it that fails is told, with the system's reason.
#[derive(Drop)]
pub struct Reported<R: Drop, S: Drop> {
    rt: R,
    source: Source,
    inner: S,
}

impl<R: Log + Drop, S: Drop> Reported<R, S> {
    /// Over this stream: what it reads and writes is what the stream gives and takes. A failure is
    /// told, and handed on as it came.
    pub fn new(rt: R, source: Source, inner: S) -> Reported<R, S> {
        Reported { rt, source, inner }
    }

    // What was interrupted is called again, and is no failure.
    fn told<T>(&self, call: &str, done: io::Result<T>) -> io::Result<T>
        ensures { result ≡ done }
    {
        if let Err(reason) = &done {
            if reason.kind() != ErrorKind::Interrupted {
                let source = self.source;
                tell_failure(&self.rt, &Event::CallFailed { call, source }, reason);
            }
        }
        done
    }
}

impl<R: Log + Drop, S: Read + Drop> Read for Reported<R, S> {
    ghost remaining = { λ r. S.remaining r.inner };

    fn read(&mut self, buf: &mut [u8]) -> io::Result<usize> {
        let done = self.inner.read(buf);
        self.told("read", done)
    }
}

impl<R: Log + Drop, S: Write + Drop> Write for Reported<R, S> {
    ghost contents = { λ w. S.contents w.inner };

    fn write(&mut self, buf: &[u8]) -> io::Result<usize> {
        let done = self.inner.write(buf);
        self.told("write", done)
    }

    fn flush(&mut self) -> io::Result<()> {
        let done = self.inner.flush();
        self.told("flush", done)
    }
}

impl<R: Log + Drop, S: Seek + Drop> Seek for Reported<R, S> {
    fn seek(&mut self, to: SeekFrom) -> io::Result<u64> {
        let done = self.inner.seek(to);
        self.told("seek", done)
    }
}

impl<R: Log + Drop, S: OpenFile + Drop> OpenFile for Reported<R, S> {
    fn metadata(&self) -> io::Result<Metadata> {
        let done = self.inner.metadata();
        self.told("metadata", done)
    }

    fn set_len(&self, size: u64) -> io::Result<()> {
        let done = self.inner.set_len(size);
        self.told("set-length", done)
    }

    fn sync_all(&self) -> io::Result<()> {
        let done = self.inner.sync_all();
        self.told("sync", done)
    }

    fn sync_data(&self) -> io::Result<()> {
        let done = self.inner.sync_data();
        self.told("sync", done)
    }
}
