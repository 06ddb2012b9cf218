//! The lines of an input.

ghost use Rattle.std.specs.Prelude.{◌≡◌, ◌≢◌, ◌+◌, ◌<◌, [], false, true, length, IfErr, IfOk};
ghost use Rattle.std.specs.Prelude.{IfSome, MatchOption, OnOk};
ghost use Rattle.fp_edit.specs.Flags.{State};
ghost use Rattle.fp_session.specs.Asks.{asked_by_input};
ghost use Rattle.fp_session.specs.Requests.{first_line, is_http_line};
ghost use Rattle.fp_session.specs.RunPromise.{RunPromise};
ghost use Rattle.fp_session.specs.Sources.{AskLines, AsksNext, bytes_at_hand};
ghost use Rattle.fp_session.specs.Streams.{Blames};
ghost use Rattle.fp_session.specs.declared.fault.ApplyFault.TheVariants.{Device};
ghost use Rattle.fp_streams.specs.Failures.{CountsFailures};

use crate::batching::Batching;
use crate::chunk::Chunk;
use crate::line::{IncomingLine, newline_in};
use crate::request::RequestLine;
use crate::run::answer_all;
use crate::source::EditSource;
use crate::{ApplyFault, EditStore};
use fp_edit::{Edit, LineFault};
use fp_streams::{FailureCounted, StreamFault};
use std::alloc::{AllocError, Global};
use std::io::{Read, Write};
use std::marker::Model;

/// The lines of an input, as they come in.
#[derive(Drop)]
pub struct InputLines {
    line: IncomingLine,
    chunk: Chunk,
    is_ended: bool,
}

impl Model for InputLines {
    ghost use Rattle.std.specs.Prelude.{◌≡◌, [], true};
    ghost use Rattle.fp_session.specs.Sources.{LinesState};

    ghost Value = { LinesState };

    ghost view = { λ l. record { line = l.line; left = l.chunk; ended = l.is_ended } };

    ghost invariant = { λ l. l.is_ended ≡ true → l.chunk ≡ [] };
}

impl InputLines {
    /// The lines of an input of which nothing came in yet: a source that asks what they ask, for a
    /// loop of one's own.
    pub fn new(alloc: Global) -> InputLines
        ensures { result ≡ record { line = []; left = []; ended = false } }
    {
        InputLines {
            line: IncomingLine::new(alloc),
            chunk: Chunk::new(),
            is_ended: false,
        }
    }

    /// Reads as far as the first line goes, and says whether it is an HTTP request's, also over TLS,
    /// however it is cut. What the lines ask is asked behind it.
    pub fn begin_with_request<R: Read>(
        &mut self,
        reader: &mut FailureCounted<R>,
    ) -> Result<bool, StreamFault>
        // Nothing came in yet.
        requires fresh { self.old ≡ record { line = []; left = []; ended = false } }
        // `Ok`: true exactly where the first line of what was still to be read is an HTTP
        // request's.
        ensures told { IfOk result (λ is_request. IfSome (R.remaining reader.old.inner)
            (λ input. is_request ≡ is_http_line (first_line input))) }
        // `Ok`: from here on it asks what the lines of all of that ask, the first one too.
        ensures asks { OnOk result (IfSome (R.remaining reader.old.inner) (λ input.
            AskLines self.new (R.remaining reader.new.inner) (asked_by_input input))) }
        // `Device` exactly where the reader's count of failures rose.
        ensures counted { CountsFailures reader.old.failures reader.new.failures result }
    {
        let first = read_first(&mut self.line, &mut self.chunk, reader)?;
        self.is_ended = first.is_ended;
        Ok(first.is_request)
    }
}

impl<R: Read> EditSource<FailureCounted<R>> for InputLines {
    ghost asks = { λ l s all. AskLines l (R.remaining s.inner) all };

    ghost at_hand = { λ l. bytes_at_hand l };

    ghost left = { λ s. s.reads_left };

    ghost failures = { λ s. s.failures };

    fn next(&mut self, alloc: Global) -> Result<Option<Result<Edit, LineFault>>, AllocError> {
        if self.is_ended {
            return Ok(self.line.end(alloc));
        }
        next_line(alloc, &mut self.line, &mut self.chunk)
    }

    fn refill(&mut self, reader: &mut FailureCounted<R>) -> Result<bool, StreamFault> {
        if self.is_ended {
            return Ok(false);
        }
        let is_more = self.chunk.fill(reader)?;
        self.is_ended = !is_more;
        Ok(true)
    }
}

// A first line: whether it is an HTTP request's, and whether the input ends with it.
#[derive(Drop, Clone, Copy)]
struct FirstLine {
    is_request: bool,
    is_ended: bool,
}

// Reads until the first line is whole. Behind it stands what came in with it.
fn read_first<R: Read>(
    line: &mut IncomingLine,
    chunk: &mut Chunk,
    reader: &mut FailureCounted<R>,
) -> Result<FirstLine, StreamFault>
    requires none { line.old ≡ [] }
    requires empty { chunk.old ≡ [] }
    ensures told { IfOk result (λ first. IfSome (R.remaining reader.old.inner)
        (λ input. first.is_request ≡ is_http_line (first_line input))) }
    ensures asks { IfOk result (λ first. IfSome (R.remaining reader.old.inner) (λ input. AskLines
        (record { line = line.new; left = chunk.new; ended = first.is_ended })
        (R.remaining reader.new.inner) (asked_by_input input))) }
    ensures ended { IfOk result (λ first. first.is_ended ≡ true → chunk.new ≡ []) }
    ensures counted { CountsFailures reader.old.failures reader.new.failures result }
{
    let mut request = RequestLine::Nothing;
    loop {
        let is_more = chunk.fill(reader)?;
        if !is_more {
            return Ok(FirstLine {
                is_request: request.is_whole(),
                is_ended: true,
            });
        }
        if let Some(at) = newline_in(chunk.as_slice()) {
            let whole = request.followed(&chunk.as_slice()[..at]);
            return Ok(FirstLine {
                is_request: whole.is_whole(),
                is_ended: false,
            });
        }
        request = request.followed(chunk.as_slice());
        let Ok(()) = line.extend(chunk.as_slice()) else {
            return Err(StreamFault::Memory);
        };
        chunk.skip(chunk.as_slice().len());
    }
}

// What the next line asks that ends among the bytes that came in and isn't blank.
fn next_line(
    alloc: Global,
    line: &mut IncomingLine,
    chunk: &mut Chunk,
) -> Result<Option<Result<Edit, LineFault>>, AllocError>
    ensures next { IfOk result (AsksNext AskLines
        (record { line = line.old; left = chunk.old; ended = false })
        (record { line = line.new; left = chunk.new; ended = false })) }
    ensures fewer { IfOk result (λ next. MatchOption next (chunk.new ≡ [])
        (λ _. length chunk.new < length chunk.old)) }
{
    while let Some(at) = newline_in(chunk.as_slice()) {
        line.extend(&chunk.as_slice()[..at])?;
        chunk.skip(at + 1);
        if let Some(edit) = line.end(alloc) {
            return Ok(Some(edit));
        }
    }
    line.extend(chunk.as_slice())?;
    chunk.skip(chunk.as_slice().len());
    Ok(None)
}

/// Answers each line of the reader that isn't blank, in order, and shows the flags behind the last
/// reply. Each edit is kept before it is answered.
///
/// It reads in chunks of 64 KiB. The replies to a chunk are sent and flushed before the next read,
/// and sooner where more than 64 KiB of them wait: so no more is held than a chunk, its replies and
/// 32,769 bytes of a line. `Ok(false)` says that a reply told of wanting memory. Where an edit
/// isn't kept its reply is `store-failed`, the last one. Replies that were made before a fault are
/// sent before it is answered; where that fails too the first fault is answered. A reader or a
/// writer that fails is `Device`, unless the store failed or memory was wanting just before.
pub fn apply_lines<R: Read, W: Write, E: EditStore>(
    alloc: Global,
    r: &mut FailureCounted<R>,
    w: &mut FailureCounted<W>,
    edits: E,
) -> (E, Result<bool, ApplyFault>)
    // Nothing waits to be kept yet.
    requires fresh { (flags : State) → E.may_stand edits flags → flags ≡ E.state edits }
    // The promise of a run over what the input's lines ask, of which one is answered at once.
    ensures runs { RunPromise E.EditStore
        (λ Holds. IfSome (R.remaining r.old.inner) (λ input. Holds (asked_by_input input))) 1
        edits result.0 (W.contents w.old.inner) (W.contents w.new.inner)
        w.old.failures w.new.failures result.1 }
    // `Device` comes only where the reader or the writer failed, and `Ok` only where neither did.
    ensures device { Blames (r.old.failures + w.old.failures) (r.new.failures + w.new.failures)
        result.1 }
    // At any fault but `Device` the reader didn't fail.
    ensures read { IfErr result.1 (λ f. f ≢ Device → r.new.failures ≡ r.old.failures) }
{
    let mut lines = InputLines::new(alloc);
    let mut edits = edits;
    let outcome = answer_all(alloc, &mut lines, r, w, &mut edits, Batching::Single);
    (edits, outcome)
}
