//! Readers and writers whose failures are counted.

ghost use Rattle.std.specs.Prelude.{◌≡◌, ◌+◌, ◌++◌, ◌-◌, ◌<◌, ◌^◌, IfOk, IfSome, IfErr, OnOk};
ghost use Rattle.std.specs.Io.{ReadsAtMost};
ghost use Rattle.std.specs.Io.KnownBytes.{Appends, ReadConsumes};
ghost use Rattle.fp_streams.specs.Failures.{CountsFailures};
ghost use Rattle.fp_streams.specs.Said.{AppendsLine};
ghost use Rattle.fp_streams.specs.declared.counted.StreamFault.TheVariants.{Device};

use crate::gathered::{WriteGathered, write_both_and_flush};
use fp_fronts::Count;
use std::alloc::Global;
use std::fmt::Display;
use std::io;
use std::io::{ErrorKind, Read, Write};
use std::marker::Model;

/// Why a stream gave or took nothing.
#[derive(Debug, Drop, Clone, Copy)]
pub enum StreamFault {
    /// The reader or the writer failed, or was read too often.
    Device,
    /// Memory ran out.
    Memory,
}

/// A reader or a writer whose failures are counted, in proofs alone: a contract can say by the
/// count that a stream failed, which its own answers don't.
#[derive(Drop)]
pub struct FailureCounted<S> {
    stream: S,
    failures: Count,
    reads_left: u64,
}

impl<S> Model for FailureCounted<S> {
    ghost use Rattle.std.specs.Coded.{codes};
    ghost use Rattle.fp_streams.specs.Failures.{Stream};

    ghost Value = { Stream S };

    ghost coded = { Prim.hlevel (codes) };

    ghost view = { λ c. record {
      inner = c.stream;
      failures = c.failures;
      reads_left = c.reads_left;
    } };
}

impl<S> FailureCounted<S> {
    /// Begins to count: over this stream, of no failure yet, that may be read 2^64 - 1 times.
    pub fn new(stream: S) -> FailureCounted<S>
        ensures { result ≡ record { inner = stream; failures = 0; reads_left = 2 ^ 64 - 1 } }
    {
        FailureCounted {
            stream,
            failures: Count::new(),
            reads_left: u64::MAX,
        }
    }

    /// Lends the stream itself.
    pub fn get_ref(&self) -> &S
        ensures { result.now ≡ self.now.inner }
    {
        &self.stream
    }

    /// Gives the stream back.
    pub fn into_inner(self) -> S
        ensures { result ≡ self.inner }
    {
        let FailureCounted {
            stream,
            failures: _,
            reads_left: _,
        } = self;
        stream
    }

    // One failure more.
    fn fault(&mut self) -> StreamFault
        ensures { (result ≡ Device)
            × (self.new ≡ record self.old { failures = self.old.failures + 1 }) }
    {
        self.failures.increment();
        StreamFault::Device
    }
}

impl<R: Read> FailureCounted<R> {
    /// Reads once, and again where it was interrupted. `Ok(0)` is the end, unless there is no room.
    pub fn read(&mut self, buf: &mut [u8]) -> Result<usize, StreamFault>
        // `Ok`: no more bytes than there is room for.
        ensures bound { ReadsAtMost result buf.new }
        // `Ok`: the next bytes of the stream were taken; an error consumes nothing.
        ensures bytes { ReadConsumes (R.remaining self.old.inner) (R.remaining self.new.inner)
            result buf.new }
        // Its one fault is `Device`.
        ensures fault { IfErr result (λ f. f ≡ Device) }
        // A failure is counted exactly where `Device` is answered.
        ensures counted { CountsFailures self.old.failures self.new.failures result }
        // `Ok`: fewer reads are left, so that a loop to an end that nobody knows ends.
        ensures fewer { OnOk result (self.new.reads_left < self.old.reads_left) }
    {
        while self.reads_left > 0 {
            self.reads_left -= 1;
            match self.stream.read(buf) {
                Ok(count) => return Ok(count),
                Err(e) if e.kind() == ErrorKind::Interrupted => {}
                Err(_) => return Err(self.fault()),
            }
        }
        Err(self.fault())
    }

    /// Reads all that is left. Want of memory is `Memory`, any other error `Device`.
    pub fn read_to_end(&mut self, alloc: Global) -> Result<Vec<u8>, StreamFault>
        // `Ok`: the bytes are all that was left.
        ensures bytes { IfOk result (λ bytes.
            IfSome (R.remaining self.old.inner) (λ left. bytes.items ≡ left)) }
        // A failure is counted exactly where `Device` is answered.
        ensures counted { CountsFailures self.old.failures self.new.failures result }
        // It counts as no read.
        ensures reads { self.new.reads_left ≡ self.old.reads_left }
    {
        let mut bytes = Vec::new(alloc);
        match self.stream.read_to_end(&mut bytes) {
            Ok(_) => Ok(bytes),
            Err(e) if e.kind() == ErrorKind::OutOfMemory => Err(StreamFault::Memory),
            Err(_) => Err(self.fault()),
        }
    }
}

impl<W: WriteGathered> FailureCounted<W> {
    /// Writes both, one behind the other, and flushes them: by one call where the stream takes them
    /// whole, and neither is copied. At an error some of the bytes may have been written.
    pub fn send_both(&mut self, first: &[u8], second: &[u8]) -> Result<(), StreamFault>
        // `Ok`: the first bytes and then the second ones stand behind what the writer held.
        ensures bytes { OnOk result (Appends (W.contents self.old.inner)
            (W.contents self.new.inner) (first.now ++ second.now)) }
        // Its one fault is `Device`.
        ensures fault { IfErr result (λ f. f ≡ Device) }
        // A failure is counted exactly where `Device` is answered.
        ensures counted { CountsFailures self.old.failures self.new.failures result }
        // It counts as no read.
        ensures reads { self.new.reads_left ≡ self.old.reads_left }
    {
        match write_both_and_flush(&mut self.stream, first, second) {
            Ok(()) => Ok(()),
            Err(_) => Err(self.fault()),
        }
    }
}

impl<W: Write> FailureCounted<W> {
    /// Writes all of the bytes, and flushes them. At an error some of them may have been written.
    pub fn send(&mut self, bytes: &[u8]) -> Result<(), StreamFault>
        // `Ok`: the bytes stand behind what the writer held.
        ensures bytes { OnOk result
            (Appends (W.contents self.old.inner) (W.contents self.new.inner) bytes.now) }
        // Its one fault is `Device`.
        ensures fault { IfErr result (λ f. f ≡ Device) }
        // A failure is counted exactly where `Device` is answered.
        ensures counted { CountsFailures self.old.failures self.new.failures result }
        // It counts as no read.
        ensures reads { self.new.reads_left ≡ self.old.reads_left }
    {
        match write_and_flush(&mut self.stream, bytes) {
            Ok(()) => Ok(()),
            Err(_) => Err(self.fault()),
        }
    }

    /// Writes what the text displays and a newline, and flushes them; it takes no memory. At an
    /// error some of it may have been written.
    pub fn say<T: Display>(&mut self, text: &T) -> Result<(), StreamFault>
        // `Ok`: the text and a newline stand behind what the writer held.
        ensures text { OnOk result (IfSome (T.output text.now)
            (AppendsLine (W.contents self.old.inner) (W.contents self.new.inner))) }
        // Its one fault is `Device`.
        ensures fault { IfErr result (λ f. f ≡ Device) }
        // A failure is counted exactly where `Device` is answered.
        ensures counted { CountsFailures self.old.failures self.new.failures result }
        // It counts as no read.
        ensures reads { self.new.reads_left ≡ self.old.reads_left }
    {
        match write_line_and_flush(&mut self.stream, text) {
            Ok(()) => Ok(()),
            Err(_) => Err(self.fault()),
        }
    }
}

fn write_and_flush<W: Write>(w: &mut W, bytes: &[u8]) -> io::Result<()>
    ensures { OnOk result (Appends (W.contents w.old) (W.contents w.new) bytes.now) }
{
    w.write_all(bytes)?;
    w.flush()?;
    Ok(())
}

fn write_line_and_flush<W: Write, T: Display>(w: &mut W, text: &T) -> io::Result<()>
    ensures { OnOk result
        (IfSome (T.output text.now) (AppendsLine (W.contents w.old) (W.contents w.new))) }
{
    writeln!(w, "{text}")?;
    w.flush()?;
    Ok(())
}
