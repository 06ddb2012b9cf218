//! Edits of one flag, as the objects of a line spell them.

ghost use Rattle.std.specs.Prelude.{◌≡◌, Some, IfErr, codes, is_some, option_map, true};
ghost use Rattle.serde_json.specs.Find.{get};
ghost use Rattle.fp_base.specs.Answer.{Gives};
ghost use Rattle.fp_base.specs.Ordered.{IsOrdered};
ghost use Rattle.fp_base.specs.TreeView.{tree_view, tree_members};
ghost use Rattle.fp_definition.specs.Key.{key_bytes};
ghost use Rattle.fp_edit.specs.Asks.{members_ask, part_asks};
ghost use Rattle.fp_edit.specs.Line as says;
ghost use Rattle.fp_edit.specs.Parts.{proposed_of};
ghost use Rattle.fp_edit.specs.Spelled.{TellsPart};
ghost use Rattle.fp_edit.specs.declared.line.PartFault.TheVariants as part;

use crate::edit::{Change, Expect, REVISIONS_END};
use crate::line::{Op, PartFault};
use fp_base::Tree;
use fp_definition::{DefFault, Definition, FlagKey, KeyFault};
use std::alloc::Global;

// The change to one flag that an object with this `op` is.
pub(crate) fn change_in(
    alloc: Global,
    tree: &Tree<'_>,
    op: Option<&Tree<'_>>,
) -> Result<Change, PartFault>
    requires ordered { IsOrdered (tree_view tree.now) }
    requires op { option_map (λ t. tree_view t.now) op ≡ get (codes "op") (tree_view tree.now) }
    ensures value { Gives proposed_of TellsPart result (says.part_in (tree_view tree.now)) }
    ensures memory { IfErr result (λ e. e ≡ part.Memory → part_asks (tree_view tree.now) ≡ true) }
{
    let Tree::Object(members) = tree else {
        return Err(PartFault::NotObject);
    };
    if !all_known(members) {
        return Err(PartFault::BadMember);
    }
    change_with(alloc, tree, op)
}

fn all_known(members: &[(&str, Tree<'_>)]) -> bool
    ensures { result ≡ says.all_known (tree_members members.now) }
{
    for member in members {
        if !is_known(member.0) {
            return false;
        }
    }
    true
}

fn is_known(name: &str) -> bool
    ensures { result ≡ says.is_known name.now }
{
    name == "flag" || name == "if" || name == "key" || name == "op"
}

// The change that known members make, with this `op`.
#[tactic(auto, unfolding(crate::specs::Line::part_of))]
fn change_with(alloc: Global, tree: &Tree<'_>, op: Option<&Tree<'_>>) -> Result<Change, PartFault>
    requires ordered { IsOrdered (tree_view tree.now) }
    requires op { option_map (λ t. tree_view t.now) op ≡ get (codes "op") (tree_view tree.now) }
    ensures value { Gives proposed_of TellsPart result (says.part_of (tree_view tree.now)) }
    ensures memory { IfErr result (λ e. e ≡ part.Memory
        → members_ask (tree_view tree.now) ≡ true) }
{
    let op = op_of(op)?;
    let key = key_of(alloc, tree)?;
    let expect = expect_of(tree)?;
    match op {
        Op::Delete => Ok(Change::Delete { key, expect }),
        Op::Put => {
            let flag = flag_of(alloc, tree)?;
            Ok(Change::Put { key, flag, expect })
        }
    }
}

fn op_of(op: Option<&Tree<'_>>) -> Result<Op, PartFault>
    ensures value { Gives (λ op. op) TellsPart result
        (says.op_of (option_map (λ t. tree_view t.now) op.entry)) }
    ensures fault { IfErr result (λ e. e ≡ part.BadOp) }
{
    match op {
        Some(Tree::String(text)) => op_by_name(text),
        _ => Err(PartFault::BadOp),
    }
}

fn op_by_name(text: &str) -> Result<Op, PartFault>
    ensures value { Gives (λ op. op) TellsPart result (says.op_by_name text.now) }
    ensures fault { IfErr result (λ e. e ≡ part.BadOp) }
{
    match text {
        "put" => Ok(Op::Put),
        "delete" => Ok(Op::Delete),
        _ => Err(PartFault::BadOp),
    }
}

fn key_of(alloc: Global, tree: &Tree<'_>) -> Result<FlagKey, PartFault>
    ensures value { Gives key_bytes TellsPart result
        (says.key_of (get (codes "key") (tree_view tree.now))) }
    ensures memory { IfErr result (λ e. e ≡ part.Memory
        → is_some (get (codes "key") (tree_view tree.now)) ≡ true) }
{
    match tree.get("key") {
        Some(Tree::String(text)) => match FlagKey::new(alloc, text) {
            Ok(key) => Ok(key),
            Err(KeyFault::BadKey) => Err(PartFault::BadKey),
            Err(KeyFault::Memory) => Err(PartFault::Memory),
        },
        _ => Err(PartFault::BadKey),
    }
}

fn expect_of(tree: &Tree<'_>) -> Result<Expect, PartFault>
    ensures value { Gives (λ expect. expect) TellsPart result
        (says.expect_of (get (codes "if") (tree_view tree.now))) }
    ensures fault { IfErr result (λ e. e ≡ part.BadIf) }
{
    match tree.get("if") {
        None | Some(Tree::Null) => Ok(Expect::Any),
        Some(Tree::String(text)) => expect_by_name(text),
        Some(Tree::Number(number)) => expect_at(number.as_u64()),
        Some(_) => Err(PartFault::BadIf),
    }
}

fn expect_by_name(text: &str) -> Result<Expect, PartFault>
    ensures value { Gives (λ expect. expect) TellsPart result (says.expect_by_name text.now) }
    ensures fault { IfErr result (λ e. e ≡ part.BadIf) }
{
    match text {
        "any" => Ok(Expect::Any),
        "absent" => Ok(Expect::Absent),
        _ => Err(PartFault::BadIf),
    }
}

fn expect_at(revision: Option<u64>) -> Result<Expect, PartFault>
    ensures value { Gives (λ expect. expect) TellsPart result (says.expect_at revision) }
    ensures fault { IfErr result (λ e. e ≡ part.BadIf) }
{
    match revision {
        Some(n) if 0 < n && n < REVISIONS_END => Ok(Expect::At(n)),
        _ => Err(PartFault::BadIf),
    }
}

#[tactic(auto, using(fp_base::proofs::Inside::ordered_get), unfolding(crate::specs::Line::flag_of))]
fn flag_of(alloc: Global, tree: &Tree<'_>) -> Result<Definition, PartFault>
    requires { IsOrdered (tree_view tree.now) }
    ensures value { Gives (λ definition. definition) TellsPart result
        (says.flag_of (get (codes "flag") (tree_view tree.now))) }
    ensures memory { IfErr result (λ e. e ≡ part.Memory
        → is_some (get (codes "flag") (tree_view tree.now)) ≡ true) }
{
    match tree.get("flag") {
        None => Err(PartFault::BadFlag(DefFault::NotObject)),
        Some(flag) => definition_in(alloc, flag),
    }
}

// The definition that the member `flag` is.
#[tactic(auto, unfolding(crate::specs::Line::flag_of))]
fn definition_in(alloc: Global, flag: &Tree<'_>) -> Result<Definition, PartFault>
    requires { IsOrdered (tree_view flag.now) }
    ensures { Gives (λ definition. definition) TellsPart result
        (says.flag_of (Some (tree_view flag.now))) }
{
    match Definition::from_tree(alloc, flag) {
        Ok(definition) => Ok(definition),
        Err(DefFault::Memory) => Err(PartFault::Memory),
        Err(fault) => Err(PartFault::BadFlag(fault)),
    }
}
