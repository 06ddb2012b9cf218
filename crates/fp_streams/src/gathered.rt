//! Two texts that are written by one call.

ghost use Rattle.std.specs.Prelude.{◌++◌, ◌≤◌, length, take, IfOk, OnOk};
ghost use Rattle.std.specs.Io.{WritesAtMost};
ghost use Rattle.std.specs.Io.Slices.{io_slices_bytes};
ghost use Rattle.std.specs.Io.KnownBytes.{Appends, WriteAppends};

use std::io;
use std::io::{ErrorKind, IoSlice, Write};

/// A writer that may take several texts by one call of its own, as a socket does. The library's
/// `write_vectored` is final, and takes them one by one.
pub trait WriteGathered: Write {
    /// Writes several texts in turn, by one call where the writer has one. It may stop anywhere, as
    /// `write` may.
    fn write_gathered(&mut self, texts: &[IoSlice<'_>]) -> io::Result<usize>
        // `Ok`: no more bytes than the texts have.
        ensures bound { WritesAtMost result (io_slices_bytes texts.now) }
        // `Ok`: so many of their bytes stand behind what the writer held; an error: nothing does.
        ensures bytes { WriteAppends (Self.contents self.old) (Self.contents self.new) result
            (io_slices_bytes texts.now) }
    {
        self.write_vectored(texts)
    }
}

impl WriteGathered for Vec<u8> {}

// Writes both, one behind the other, and flushes them.
pub(crate) fn write_both_and_flush<W: WriteGathered>(
    w: &mut W,
    first: &[u8],
    second: &[u8],
) -> io::Result<()>
    ensures { OnOk result
        (Appends (W.contents w.old) (W.contents w.new) (first.now ++ second.now)) }
{
    let count = write_first(w, first, second)?;
    w.write_all(&second[count..])?;
    w.flush()?;
    Ok(())
}

// Writes the first, each time with the second behind it: how much of the second went with it.
fn write_first<W: WriteGathered>(w: &mut W, first: &[u8], second: &[u8]) -> io::Result<usize>
    ensures within { IfOk result (λ n. n ≤ length second.now) }
    ensures bytes { IfOk result (λ n.
        Appends (W.contents w.old) (W.contents w.new) (first.now ++ take n second.now)) }
{
    let mut rest = first;
    for _ in 0..u64::MAX {
        if rest.is_empty() {
            return Ok(0);
        }
        match w.write_gathered(&[IoSlice::new(rest), IoSlice::new(second)]) {
            Ok(0) => return Err(ErrorKind::WriteZero.into()),
            Ok(count) if count < rest.len() => rest = &rest[count..],
            Ok(count) => return Ok(count - rest.len()),
            Err(e) if e.kind() == ErrorKind::Interrupted => {}
            Err(e) => return Err(e),
        }
    }
    Err(ErrorKind::TimedOut.into())
}
