//! Lines that spell edits.

ghost use Rattle.std.specs.Prelude.{◌≡◌, List, Some, Result, Ok, Err, IfErr, map, option_map, true};
ghost use Rattle.serde_json.specs.Data.{array, object};
ghost use Rattle.fp_base.specs.Answer.{Gives};
ghost use Rattle.fp_base.specs.Ordered.{IsOrdered, AreOrdered};
ghost use Rattle.fp_base.specs.TreeView.{tree_view, tree_items, tree_members};
ghost use Rattle.fp_edit.specs.Edits.{proposal_of};
ghost use Rattle.fp_edit.specs.Parts.{ProposedPart, proposed_of};
ghost use Rattle.fp_edit.specs.Line as says;
ghost use Rattle.fp_edit.specs.Spelled.{Tells, TellsPart};
ghost use Rattle.fp_edit.specs.Asks.{edit_asks, list_asks, part_asks, set_asks};
ghost use Rattle.fp_edit.specs.declared.line.PartFault.TheVariants as part;
ghost use Rattle.fp_edit.specs.declared.line.LineFault.TheVariants.{BadSet, Memory};

use crate::changes::{Changes, is_count};
use crate::edit::{Change, Edit};
use crate::one_flag::change_in;
use bumpalo::Bump;
use fp_base::{Tree, read_tree};
use fp_definition::{DefFault, LONGEST_KEY};
use json::Scratch;
use std::alloc::{AllocError, Global};
use thiserror::Error;

/// The most bytes that a line has, its newline not counted.
pub const LONGEST_LINE: usize = 32_768;

/// Why an object is no edit of one flag, in the order in which the faults are looked for.
#[derive(Debug, Drop, Error)]
pub enum PartFault {
    /// It is no object.
    #[error("it is no JSON object")]
    NotObject,
    /// A member has a name that no member of an edit has.
    #[error("it has a member of another name than `flag`, `if`, `key` and `op`")]
    BadMember,
    /// `op` isn't there, or is no operation.
    #[error("`op` is neither `put` nor `delete`")]
    BadOp,
    /// `key` isn't there, or is no key.
    #[error("`key` is no text of 1 to {LONGEST_KEY} bytes")]
    BadKey,
    /// `if` is there, and is no expectation.
    #[error("`if` is neither `any`, `absent` nor a revision")]
    BadIf,
    /// `flag` is no definition. Without a `flag` the fault is `NotObject`. It is never
    /// `DefFault::Memory`.
    #[error("`flag` is no definition: {0}")]
    BadFlag(DefFault),
    /// Memory ran out.
    #[error("memory ran out")]
    Memory,
}

/// Why a line is no edit, in the order in which the faults are looked for.
#[derive(Debug, Drop, Error)]
pub enum LineFault {
    /// The line has too many bytes.
    #[error("the line is longer than {LONGEST_LINE} bytes")]
    TooLong,
    /// The line is no JSON.
    #[error("the line is no JSON")]
    NotJson,
    /// The line is JSON, and no object.
    #[error("the line is no JSON object")]
    NotObject,
    /// A member has a name that no member of such an edit has.
    #[error("the line has a member that its edit has not")]
    BadMember,
    /// `op` isn't there, or is no operation.
    #[error("`op` is neither `put`, `delete` nor `set`")]
    BadOp,
    /// `key` isn't there, or is no key.
    #[error("`key` is no text of 1 to {LONGEST_KEY} bytes")]
    BadKey,
    /// `if` is there, and is no expectation.
    #[error("`if` is neither `any`, `absent` nor a revision")]
    BadIf,
    /// `flag` is no definition. Without a `flag` the fault is `NotObject`. It is never
    /// `DefFault::Memory`.
    #[error("`flag` is no definition: {0}")]
    BadFlag(DefFault),
    /// `edits` is no list of changes that can be made together: 1 to 64, each key once, and not too
    /// long in a batch.
    #[error("`edits` is no list of changes that can be made together")]
    BadSet,
    /// The change at this place of `edits`, from 0 on and the first that has a fault, is no edit of
    /// one flag. The fault is never `PartFault::Memory`.
    #[error("change {at} of `edits`: {fault}")]
    InSet { at: usize, fault: PartFault },
    /// Memory ran out.
    #[error("memory ran out")]
    Memory,
}

impl From<AllocError> for LineFault {
    ghost use Rattle.fp_edit.specs.declared.line.LineFault.TheVariants.{Memory};

    ghost from_gives = { λ _ e. e ≡ Memory };

    fn from(_: AllocError) -> LineFault {
        LineFault::Memory
    }
}

#[derive(Debug, Clone, Copy)]
pub(crate) enum Op {
    Put,
    Delete,
}

/// The edit that a line spells, or its first fault, with the place of the change in a set that it
/// is of. The line comes without its newline, and a delete's `flag` isn't looked at.
pub fn parse_line(alloc: Global, line: &[u8]) -> Result<Edit, LineFault>
    ensures { Gives proposal_of Tells result (says.line_of line.now) }
{
    let mut scratch = Scratch::new(alloc);
    parse_line_with(alloc, line, &mut scratch)
}

/// As `parse_line`, with what reading needs, which may be kept from line to line: its 16 KB are then
/// cleared once. It grows by as many bytes as the longest line has.
#[tactic(auto, unfolding(crate::specs::Line::line_of))]
pub fn parse_line_with(alloc: Global, line: &[u8], scratch: &mut Scratch) -> Result<Edit, LineFault>
    ensures { Gives proposal_of Tells result (says.line_of line.now) }
{
    if line.len() > LONGEST_LINE {
        return Err(LineFault::TooLong);
    }
    let arena = Bump::new(alloc);
    match read_tree(alloc, &arena, line, scratch)? {
        Some(tree) => edit_in(alloc, &tree),
        None => Err(LineFault::NotJson),
    }
}

fn edit_in(alloc: Global, tree: &Tree<'_>) -> Result<Edit, LineFault>
    requires { IsOrdered (tree_view tree.now) }
    ensures value { Gives proposal_of Tells result (says.edit_in (tree_view tree.now)) }
    ensures memory { IfErr result (λ e. e ≡ Memory → edit_asks (tree_view tree.now) ≡ true) }
{
    let Tree::Object(members) = tree else {
        return Err(LineFault::NotObject);
    };
    let op = tree.get("op");
    if is_set(op) {
        return set_in(alloc, tree, members);
    }
    match change_in(alloc, tree, op) {
        Ok(change) => Ok(Edit::from(change)),
        Err(fault) => Err(line_fault(fault)),
    }
}

// The fault of a line whose edit of one flag has this one.
fn line_fault(fault: PartFault) -> LineFault
    ensures told { (said : Result ProposedPart says.Fault) → TellsPart fault (λ f. said ≡ Err f)
        → Tells result (λ f. said ≡ Err f) }
    ensures memory { result ≡ Memory → fault ≡ part.Memory }
{
    match fault {
        PartFault::NotObject => LineFault::NotObject,
        PartFault::BadMember => LineFault::BadMember,
        PartFault::BadOp => LineFault::BadOp,
        PartFault::BadKey => LineFault::BadKey,
        PartFault::BadIf => LineFault::BadIf,
        PartFault::BadFlag(fault) => LineFault::BadFlag(fault),
        PartFault::Memory => LineFault::Memory,
    }
}

// ---- sets of changes

// Whether `op`, as it was found, says that it is a set of changes.
fn is_set(op: Option<&Tree<'_>>) -> bool
    ensures { result ≡ says.is_set_text (option_map (λ t. tree_view t.now) op.entry) }
{
    matches!(op, Some(Tree::String(text)) if *text == "set")
}

#[tactic(auto, using(fp_base::proofs::Inside::ordered_get), unfolding(crate::specs::Line::set_of))]
fn set_in(alloc: Global, tree: &Tree<'_>, members: &[(&str, Tree<'_>)]) -> Result<Edit, LineFault>
    requires ordered { IsOrdered (tree_view tree.now) }
    requires same { tree_view tree.now ≡ object (tree_members members.now) }
    ensures value { Gives proposal_of Tells result (says.set_in (tree_members members.now)) }
    ensures memory { IfErr result (λ e. e ≡ Memory → set_asks (tree_members members.now) ≡ true) }
{
    if !all_known_in_set(members) {
        return Err(LineFault::BadMember);
    }
    match tree.get("edits") {
        Some(edits) => set_of(alloc, edits),
        None => Err(LineFault::BadSet),
    }
}

fn all_known_in_set(members: &[(&str, Tree<'_>)]) -> bool
    ensures { result ≡ says.all_known_in_set (tree_members members.now) }
{
    for member in members {
        if member.0 != "edits" && member.0 != "op" {
            return false;
        }
    }
    true
}

// The set of the changes that `edits` lists.
#[tactic(auto, unfolding(crate::specs::Line::set_of))]
fn set_of(alloc: Global, edits: &Tree<'_>) -> Result<Edit, LineFault>
    requires { IsOrdered (tree_view edits.now) }
    ensures value { Gives proposal_of Tells result (says.set_of (Some (tree_view edits.now))) }
    ensures memory { IfErr result (λ e. e ≡ Memory
        → list_asks (Some (tree_view edits.now)) ≡ true) }
{
    match edits {
        Tree::Array(items) => set_of_items(alloc, items),
        _ => Err(LineFault::BadSet),
    }
}

// The set of the changes that these are.
fn set_of_items(alloc: Global, items: &[Tree<'_>]) -> Result<Edit, LineFault>
    requires { AreOrdered (tree_items items.now) }
    ensures value { Gives proposal_of Tells result
        (says.set_of (Some (array (tree_items items.now)))) }
    ensures memory { IfErr result (λ e. e ≡ Memory
        → list_asks (Some (array (tree_items items.now))) ≡ true) }
{
    if !is_count(items.len()) {
        return Err(LineFault::BadSet);
    }
    joined(changes_in(alloc, items)?)
}

// The set of changes that were read. This asks for no memory.
fn joined(changes: Vec<Change>) -> Result<Edit, LineFault>
    ensures value { Gives proposal_of Tells result (says.joined (map proposed_of changes.items)) }
    ensures fault { IfErr result (λ e. e ≡ BadSet) }
{
    match Changes::new(changes) {
        Ok(changes) => Ok(Edit::Set(changes)),
        Err(_) => Err(LineFault::BadSet),
    }
}

// The changes, or the fault of the first that is none.
fn changes_in(alloc: Global, items: &[Tree<'_>]) -> Result<Vec<Change>, LineFault>
    requires { AreOrdered (tree_items items.now) }
    ensures { Gives (λ changes. map proposed_of changes.items) Tells result
        (says.parts_from 0 (tree_items items.now)) }
{
    let mut changes = Vec::with_capacity(alloc, items.len())?;
    for (at, item) in items.iter().enumerate() {
        match change_inside(alloc, item) {
            Ok(change) => changes.push_reserved(change),
            Err(fault) => return Err(fault_in_set(at, fault)),
        }
    }
    Ok(changes)
}

// The fault of a line whose change at this place has this one.
fn fault_in_set(at: usize, fault: PartFault) -> LineFault
    ensures { (said : Result (List ProposedPart) says.Fault)
        → TellsPart fault (λ f. said ≡ Err (says.in_set at f)) → Tells result (λ f. said ≡ Err f) }
{
    match fault {
        PartFault::Memory => LineFault::Memory,
        fault => LineFault::InSet { at, fault },
    }
}

fn change_inside(alloc: Global, tree: &Tree<'_>) -> Result<Change, PartFault>
    requires { IsOrdered (tree_view tree.now) }
    ensures value { Gives proposed_of TellsPart result (says.part_inside (tree_view tree.now)) }
    ensures memory { IfErr result (λ e. e ≡ part.Memory → part_asks (tree_view tree.now) ≡ true) }
{
    let op = tree.get("op");
    if is_set(op) {
        return Err(PartFault::BadOp);
    }
    change_in(alloc, tree, op)
}
