//! The line that is coming in.

ghost use Rattle.std.specs.Prelude.{◌≡◌, ◌+◌, ◌++◌, ◌^◌, ◌<◌, ◌==◌, [], List, ℕ, OnOk, IfSome};
ghost use Rattle.std.specs.Prelude.{MatchOption, length, position, true, false};
ghost use Rattle.std.specs.List.{list_all};
ghost use Rattle.fp_edit.specs.Line.{line_of};
ghost use Rattle.fp_session.specs.Lines as lines;
ghost use Rattle.fp_session.specs.Lines.{line_up_to_limit};
ghost use Rattle.fp_session.specs.Progress.{AsksFor};

use fp_edit::{Edit, LONGEST_LINE, LineFault, parse_line_with};
use json::Scratch;
use memchr::memchr;
use std::alloc::{AllocError, Global};
use std::marker::Model;

/// The line that is coming in, at most one byte more of it than is looked at.
#[derive(Drop)]
pub struct IncomingLine {
    bytes: Vec<u8>,
    scratch: Scratch,
}

impl Model for IncomingLine {
    ghost use Rattle.std.specs.Prelude.{◌≤◌, ◌+◌, ℕ, List, length};
    ghost use Rattle.fp_edit.specs.declared.line.TheConstants.{LONGEST_LINE};

    ghost Value = { List ℕ };

    ghost view = { λ l. l.bytes.items };

    ghost invariant = { λ l. length l.bytes.items ≤ LONGEST_LINE + 1 };
}

impl IncomingLine {
    /// Nothing has come in yet.
    pub fn new(alloc: Global) -> IncomingLine
        ensures { result ≡ [] }
    {
        IncomingLine {
            bytes: Vec::new(alloc),
            scratch: Scratch::new(alloc),
        }
    }

    /// Adds to the line.
    pub fn extend(&mut self, piece: &[u8]) -> Result<(), AllocError>
        ensures grown { OnOk result ((line : List ℕ) → self.old ≡ line_up_to_limit line
            → self.new ≡ line_up_to_limit (line ++ piece.now)) }
    {
        let room = (LONGEST_LINE + 1).saturating_sub(self.bytes.len());
        let part = &piece[..piece.len().min(room)];
        self.bytes.extend_from_slice(part)?;
        Ok(())
    }

    /// Ends the line, and gives what it asks; a blank one asks nothing.
    pub fn end(&mut self, alloc: Global) -> Option<Result<Edit, LineFault>>
        ensures asks { (line : List ℕ) → self.old ≡ line_up_to_limit line
            → MatchOption result (lines.is_blank line ≡ true)
            (λ edit. (lines.is_blank line ≡ false) × AsksFor edit (line_of line)) }
        // No more of it is held than is looked at.
        ensures limited { line_up_to_limit self.old ≡ self.old }
        ensures ended { self.new ≡ [] }
    {
        let edit = asked_by(alloc, &self.bytes, &mut self.scratch);
        self.bytes.clear();
        edit
    }
}

// What a line asks.
fn asked_by(alloc: Global, line: &[u8], scratch: &mut Scratch) -> Option<Result<Edit, LineFault>>
    ensures { MatchOption result (lines.is_blank line.now ≡ true)
        (λ edit. (lines.is_blank line.now ≡ false) × AsksFor edit (line_of line.now)) }
{
    if is_blank(line) {
        return None;
    }
    match parse_line_with(alloc, line, scratch) {
        Ok(edit) => Some(Ok(edit)),
        Err(fault) => Some(Err(fault)),
    }
}

/// The place of the first newline.
pub fn newline_in(bytes: &[u8]) -> Option<usize>
    ensures first { result ≡ position (λ b. b == 10) bytes.now }
    ensures within { IfSome result (λ at. at < length bytes.now) }
    ensures counted { IfSome result (λ at. at + 1 < 2 ^ 64) }
{
    memchr(b'\n', bytes)
}

fn is_space(byte: u8) -> bool
    ensures { result ≡ lines.is_space byte }
{
    byte == b' ' || (byte == b'\t' || byte == b'\r')
}

fn all_spaces(line: &[u8]) -> bool
    ensures { result ≡ list_all lines.is_space line.now }
{
    line.iter().all(|b| is_space(*b))
}

fn is_blank(line: &[u8]) -> bool
    ensures { result ≡ lines.is_blank line.now }
{
    line.len() <= LONGEST_LINE && all_spaces(line)
}
