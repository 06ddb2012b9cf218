//! Reply lines.

ghost use Rattle.std.specs.Prelude.{◌≡◌, ◌++◌, ℕ, List, not, Some, codes, decimal, OnOk};
ghost use Rattle.fp_definition.specs.Faults as flag;
ghost use Rattle.fp_definition.specs.Valid as flag_fault;
ghost use Rattle.fp_session.specs.Reply as say;
ghost use Rattle.fp_session.specs.Reply.{reply_of_code, reply_text, is_told, tells_revision};

use fp_base::put_quoted;
use fp_definition::DefFault;
use fp_edit::{EditFault, LineFault, PartFault};
use itoa::Buffer;
use std::alloc::AllocError;

/// What a line of input is answered.
#[derive(Debug, Drop)]
pub enum Reply {
    /// The edit was accepted and made this revision.
    Revision(u64),
    /// The line is an edit that the flags don't admit.
    Refused(EditFault),
    /// The line is no edit.
    NoEdit(LineFault),
    /// The edit isn't known to be kept.
    StoreFailed,
}

impl Reply {
    /// Puts the reply as JSON behind what is there, without the newline that ends its line: the
    /// text that the table of replies has.
    pub fn put_text(&self, out: &mut Vec<u8>) -> Result<(), AllocError>
        ensures { OnOk result
            (out.new.items ≡ out.old.items ++ reply_text (reply_of_code self.now)) }
    {
        match self {
            Reply::Revision(revision) => put_revision(out, *revision),
            Reply::Refused(fault) => put_refusal(out, fault),
            Reply::NoEdit(fault) => put_fault(out, fault),
            Reply::StoreFailed => put_error(out, None, "store-failed"),
        }
    }

    /// Whether the reply tells of a revision: it is one, or a conflict with one.
    pub fn tells_revision(&self) -> bool
        ensures { result ≡ tells_revision (reply_of_code self.now) }
    {
        matches!(
            self,
            Reply::Revision(_)
                | Reply::Refused(EditFault::Conflict { .. } | EditFault::ConflictIn { .. })
        )
    }

    /// Whether the reply says nothing of the line, for want of memory.
    pub fn is_out_of_memory(&self) -> bool
        ensures { result ≡ not (is_told (reply_of_code self.now)) }
    {
        match self {
            Reply::NoEdit(fault) => is_want_of_memory(fault),
            _ => matches!(self, Reply::Refused(EditFault::Memory)),
        }
    }
}

// Whether a fault says nothing of the line.
fn is_want_of_memory(fault: &LineFault) -> bool
    ensures { result ≡ not (is_told (say.fault_of fault.now)) }
{
    matches!(
        fault,
        LineFault::Memory
            | LineFault::BadFlag(DefFault::Memory)
            | LineFault::InSet {
                fault: PartFault::Memory | PartFault::BadFlag(DefFault::Memory),
                ..
            }
    )
}

fn put_revision(out: &mut Vec<u8>, revision: u64) -> Result<(), AllocError>
    ensures { OnOk result
        (out.new.items ≡ out.old.items ++ reply_text (say.revision revision)) }
{
    out.extend_from_slice(b"{\"revision\":")?;
    out.extend_from_slice(Buffer::new().format(revision).as_bytes())?;
    out.extend_from_slice(b"}")?;
    Ok(())
}

fn put_refusal(out: &mut Vec<u8>, fault: &EditFault) -> Result<(), AllocError>
    ensures { OnOk result
        (out.new.items ≡ out.old.items ++ reply_text (say.refusal_of fault.now)) }
{
    match fault {
        EditFault::Conflict { current } => put_conflict(out, None, *current),
        EditFault::ConflictIn { at, current } => put_conflict(out, Some(*at), *current),
        EditFault::SetTooLarge => put_error(out, None, "set-too-large"),
        EditFault::RevisionsUsed => put_error(out, None, "revisions-used"),
        EditFault::Memory => put_error(out, None, "out-of-memory"),
    }
}

fn put_fault(out: &mut Vec<u8>, fault: &LineFault) -> Result<(), AllocError>
    ensures { OnOk result
        (out.new.items ≡ out.old.items ++ reply_text (say.fault_of fault.now)) }
{
    match fault {
        LineFault::TooLong => put_error(out, None, "line-too-long"),
        LineFault::NotJson => put_error(out, None, "not-json"),
        LineFault::NotObject => put_error(out, None, "not-object"),
        LineFault::BadMember => put_error(out, None, "bad-member"),
        LineFault::BadOp => put_error(out, None, "bad-op"),
        LineFault::BadKey => put_error(out, None, "bad-key"),
        LineFault::BadIf => put_error(out, None, "bad-if"),
        LineFault::BadFlag(fault) => put_flag(out, fault),
        LineFault::BadSet => put_error(out, None, "bad-set"),
        LineFault::InSet { at, fault } => put_part(out, *at, fault),
        LineFault::Memory => put_error(out, None, "out-of-memory"),
    }
}

fn put_part(out: &mut Vec<u8>, at: usize, fault: &PartFault) -> Result<(), AllocError>
    ensures { OnOk result
        (out.new.items ≡ out.old.items ++ reply_text (say.fault_in at fault.now)) }
{
    match fault {
        PartFault::NotObject => put_error(out, Some(at), "not-object"),
        PartFault::BadMember => put_error(out, Some(at), "bad-member"),
        PartFault::BadOp => put_error(out, Some(at), "bad-op"),
        PartFault::BadKey => put_error(out, Some(at), "bad-key"),
        PartFault::BadIf => put_error(out, Some(at), "bad-if"),
        PartFault::BadFlag(fault) => put_placed_flag(out, at, fault),
        PartFault::Memory => put_error(out, None, "out-of-memory"),
    }
}

fn put_flag(out: &mut Vec<u8>, fault: &DefFault) -> Result<(), AllocError>
    ensures { OnOk result (out.new.items
        ≡ out.old.items ++ reply_text (say.bad_flag_or_memory (flag.tells fault.now))) }
{
    match fault {
        DefFault::Memory => put_error(out, None, "out-of-memory"),
        _ => put_detail(out, None, fault),
    }
}

fn put_placed_flag(out: &mut Vec<u8>, at: usize, fault: &DefFault) -> Result<(), AllocError>
    ensures { OnOk result (out.new.items
        ≡ out.old.items ++ reply_text (say.bad_flag_in_or_memory at (flag.tells fault.now))) }
{
    match fault {
        DefFault::Memory => put_error(out, None, "out-of-memory"),
        _ => put_detail(out, Some(at), fault),
    }
}

fn put_error(out: &mut Vec<u8>, at: Option<usize>, name: &str) -> Result<(), AllocError>
    ensures { OnOk result
        (out.new.items ≡ out.old.items ++ say.placed_if at (say.error_text name.now)) }
{
    put_opening(out, at)?;
    out.extend_from_slice(b"\"error\":\"")?;
    out.extend_from_slice(name.as_bytes())?;
    out.extend_from_slice(b"\"}")?;
    Ok(())
}

fn put_conflict(
    out: &mut Vec<u8>,
    at: Option<usize>,
    current: Option<u64>,
) -> Result<(), AllocError>
    ensures { OnOk result
        (out.new.items ≡ out.old.items ++ say.placed_if at (say.conflict_text current)) }
{
    put_opening(out, at)?;
    out.extend_from_slice(b"\"current\":")?;
    put_number_or_null(out, current)?;
    out.extend_from_slice(b",\"error\":\"conflict\"}")?;
    Ok(())
}

fn put_detail(out: &mut Vec<u8>, at: Option<usize>, fault: &DefFault) -> Result<(), AllocError>
    ensures { OnOk result ((f : flag_fault.Fault) → flag.tells fault.now ≡ Some f
        → out.new.items ≡ out.old.items ++ say.placed_if at (say.flag_text f)) }
{
    put_opening(out, at)?;
    out.extend_from_slice(b"\"detail\":\"")?;
    out.extend_from_slice(fault.as_str().as_bytes())?;
    out.extend_from_slice(b"\",\"error\":\"flag\"")?;
    put_operator(out, fault)?;
    out.extend_from_slice(b"}")?;
    Ok(())
}

// Puts how an object begins: with its place in a set, where it has one.
fn put_opening(out: &mut Vec<u8>, at: Option<usize>) -> Result<(), AllocError>
    ensures { OnOk result ((members : List ℕ) → out.new.items ++ members
        ≡ out.old.items ++ say.placed_if at (codes "{" ++ members)) }
{
    match at {
        None => out.extend_from_slice(b"{"),
        Some(at) => put_place(out, at),
    }
}

fn put_place(out: &mut Vec<u8>, at: usize) -> Result<(), AllocError>
    ensures { OnOk result (out.new.items
        ≡ out.old.items ++ codes "{\"at\":" ++ decimal at ++ codes ",") }
{
    out.extend_from_slice(b"{\"at\":")?;
    out.extend_from_slice(Buffer::new().format(at).as_bytes())?;
    out.extend_from_slice(b",")?;
    Ok(())
}

fn put_number_or_null(out: &mut Vec<u8>, number: Option<u64>) -> Result<(), AllocError>
    ensures { OnOk result (out.new.items ≡ out.old.items ++ say.number_or_null number) }
{
    match number {
        Some(number) => out.extend_from_slice(Buffer::new().format(number).as_bytes()),
        None => out.extend_from_slice(b"null"),
    }
}

fn put_operator(out: &mut Vec<u8>, fault: &DefFault) -> Result<(), AllocError>
    ensures { OnOk result ((f : flag_fault.Fault) → flag.tells fault.now ≡ Some f
        → out.new.items ≡ out.old.items ++ say.operator_member f) }
{
    if let DefFault::UnsupportedOperator(name) = fault {
        out.extend_from_slice(b",\"operator\":")?;
        put_quoted(out, name.as_str())?;
    }
    Ok(())
}
