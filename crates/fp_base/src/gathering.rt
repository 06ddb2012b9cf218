//! The members of an object, gathered as they are read.

ghost use Rattle.std.specs.Prelude.{◌≡◌, ◌++◌, [], length, reverse, true, IfOk, OnOk};
ghost use Rattle.std.specs.Cmp.Lexicographic.{slice_cmp};
ghost use Rattle.std.specs.Ordering.{nat_cmp};
ghost use Rattle.serde_json.specs.Data.{no_members, put};
ghost use Rattle.fp_base.specs.Gathered.{laid, gathered, IsFalling, IsGathered};
ghost use Rattle.fp_base.specs.Places.{AreBefore};
ghost use Rattle.fp_base.specs.Sorted.{IsBelow, IsSorted};
ghost use Rattle.fp_base.specs.TreeView.{tree_view, tree_members};

use crate::places::put_in_order;
use crate::tree::Tree;
use std::alloc::{AllocError, Global};
use std::cmp::Ordering;
use std::mem::replace;

// Among so many members one that comes out of order is put in its place; beside more it waits.
const MOST_MOVED: usize = 16;

// So few that wait at the end, among as few, are put in their places one by one. More are sorted.
const MOST_LAID: usize = 48;

// At least so many wait, and half as many as are in order, before all are put in order while
// reading goes on: repeats of a name are dropped then.
const MOST_WAITING: usize = 1024;

// Members in ascending order of their names, and behind them as they came those that wait to be put
// in order among them. Those that come in descending order from the first one on all wait.
#[derive(Drop)]
pub(crate) struct Gathered<'a> {
    pub(crate) ordered: Vec<(&'a str, Tree<'a>)>,
    pub(crate) waiting: Vec<(&'a str, Tree<'a>)>,
}

impl<'a> Gathered<'a> {
    // No members, in a vector that was emptied.
    pub(crate) fn new(alloc: Global, emptied: Vec<(&'a str, Tree<'a>)>) -> Gathered<'a>
        requires { emptied.items ≡ [] }
        ensures none { gathered result ≡ no_members }
        ensures kept { IsGathered result }
    {
        Gathered {
            ordered: emptied,
            waiting: Vec::new(alloc),
        }
    }

    // One member more. It takes the place of one of the same name.
    #[inline(always)]
    pub(crate) fn put(
        &mut self,
        alloc: Global,
        name: &'a str,
        tree: Tree<'a>,
    ) -> Result<(), AllocError>
        requires { IsGathered self.old }
        ensures members { OnOk result (gathered self.new
            ≡ put name.now (tree_view tree.entry) (gathered self.old)) }
        ensures kept { OnOk result (IsGathered self.new) }
    {
        if self.waiting.is_empty() {
            if comes_last(&self.ordered, name) {
                self.ordered.push((name, tree))?;
                return Ok(());
            }
        }
        self.put_in_place(alloc, name, tree)
    }

    // The same of a member that may come out of order. One alone is in descending order, too.
    #[inline(never)]
    fn put_in_place(
        &mut self,
        alloc: Global,
        name: &'a str,
        tree: Tree<'a>,
    ) -> Result<(), AllocError>
        requires { IsGathered self.old }
        ensures members { OnOk result (gathered self.new
            ≡ put name.now (tree_view tree.entry) (gathered self.old)) }
        ensures kept { OnOk result (IsGathered self.new) }
    {
        if self.ordered.is_empty() {
            return self.put_falling(alloc, name, tree);
        }
        if self.waiting.is_empty() {
            if self.ordered.len() == 1 {
                self.waiting = replace(&mut self.ordered, Vec::new(alloc));
                return self.put_falling(alloc, name, tree);
            }
        }
        self.put_apart(alloc, name, tree)
    }

    // The same beside members in descending order alone. Where it ends, they are turned.
    #[inline(never)]
    fn put_falling(
        &mut self,
        alloc: Global,
        name: &'a str,
        tree: Tree<'a>,
    ) -> Result<(), AllocError>
        requires none { length self.old.ordered.items ≡ 0 }
        requires falling { IsFalling self.old.waiting.items }
        ensures members { OnOk result (gathered self.new
            ≡ put name.now (tree_view tree.entry) (gathered self.old)) }
        ensures kept { OnOk result (IsGathered self.new) }
    {
        if comes_before_last(&self.waiting, name) {
            self.waiting.push((name, tree))?;
            return Ok(());
        }
        let falling = replace(&mut self.waiting, Vec::new(alloc));
        self.ordered = turned(falling);
        put_in_order(&mut self.ordered, name, tree)?;
        Ok(())
    }

    // The same of a member that may come out of order, beside those in ascending order.
    #[tactic(auto, using(crate::proofs::Gatherings::still_sorted))]
    fn put_apart(&mut self, alloc: Global, name: &'a str, tree: Tree<'a>) -> Result<(), AllocError>
        requires sorted { IsSorted (tree_members self.old.ordered.items) }
        requires none { length self.old.ordered.items ≡ 0 → length self.old.waiting.items ≡ 0 }
        ensures members { OnOk result (gathered self.new
            ≡ put name.now (tree_view tree.entry) (gathered self.old)) }
        ensures kept { OnOk result (IsGathered self.new) }
    {
        if self.waiting.is_empty() {
            if self.ordered.len() <= MOST_MOVED {
                put_in_order(&mut self.ordered, name, tree)?;
                return Ok(());
            }
        }
        self.waiting.push((name, tree))?;
        let waiting = self.waiting.len();
        if waiting < MOST_WAITING || waiting < self.ordered.len() / 2 {
            return Ok(());
        }
        let ordered = replace(&mut self.ordered, Vec::new(alloc));
        let waiting = replace(&mut self.waiting, Vec::new(alloc));
        self.ordered = in_order(alloc, ordered, waiting)?;
        Ok(())
    }

    #[inline(always)]
    pub(crate) fn into_members(self, alloc: Global) -> Result<Vec<(&'a str, Tree<'a>)>, AllocError>
        requires { IsGathered self }
        ensures { IfOk result (λ v. tree_members v.items ≡ gathered self.entry) }
    {
        let Gathered { ordered, waiting } = self;
        if waiting.is_empty() {
            return Ok(ordered);
        }
        if ordered.is_empty() {
            return Ok(turned(waiting));
        }
        if waiting.len() <= MOST_LAID && ordered.len() <= MOST_LAID {
            return laid(ordered, waiting);
        }
        in_order(alloc, ordered, waiting)
    }
}

// Whether a name comes behind those of all members.
#[inline(always)]
fn comes_last(members: &[(&str, Tree<'_>)], name: &str) -> bool
    requires { IsSorted (tree_members members.now) }
    ensures { result ≡ true → AreBefore name.now members.now }
{
    match members.last() {
        Some(last) => last.0.cmp(name).is_lt(),
        None => true,
    }
}

// Whether a name comes before the last of members in descending order.
#[inline(always)]
fn comes_before_last(members: &[(&str, Tree<'_>)], name: &str) -> bool
    requires { IsFalling members.now }
    ensures { result ≡ true → IsBelow name.now (tree_members (reverse members.now)) }
{
    match members.last() {
        Some(last) => name.cmp(last.0).is_lt(),
        None => false,
    }
}

// Members in descending order, from the last one on.
fn turned<'a>(falling: Vec<(&'a str, Tree<'a>)>) -> Vec<(&'a str, Tree<'a>)>
    requires { IsFalling falling.items }
    ensures sorted { IsSorted (tree_members result.items) }
    ensures members { tree_members result.items ≡ laid no_members falling.entry.items }
{
    let mut members = falling;
    members.reverse();
    members
}

// All members, each that waits put among the others in turn.
#[inline(never)]
#[tactic(auto, using(crate::proofs::Gatherings::laid_together))]
fn in_order<'a>(
    alloc: Global,
    ordered: Vec<(&'a str, Tree<'a>)>,
    waiting: Vec<(&'a str, Tree<'a>)>,
) -> Result<Vec<(&'a str, Tree<'a>)>, AllocError>
    requires { IsSorted (tree_members ordered.items) }
    ensures { IfOk result (λ v. tree_members v.items
        ≡ laid (tree_members ordered.entry.items) waiting.entry.items) }
{
    let all = joined(ordered, waiting)?;
    let found = sorted(alloc, all)?;
    Ok(found)
}

// The ones in front of the others.
fn joined<'a>(
    front: Vec<(&'a str, Tree<'a>)>,
    behind: Vec<(&'a str, Tree<'a>)>,
) -> Result<Vec<(&'a str, Tree<'a>)>, AllocError>
    ensures { IfOk result (λ v. v.items ≡ front.entry.items ++ behind.entry.items) }
{
    let mut all = front;
    let mut behind = behind;
    all.reserve_exact(behind.len())?;
    all.append(&mut behind)?;
    Ok(all)
}

// Members that were put in turn among none. Once they are sorted, each comes last, or repeats the
// one before it.
fn sorted<'a>(
    alloc: Global,
    members: Vec<(&'a str, Tree<'a>)>,
) -> Result<Vec<(&'a str, Tree<'a>)>, AllocError>
    ensures { IfOk result (λ v. tree_members v.items ≡ laid no_members members.entry.items) }
{
    let mut members = members;
    members.sort_by(by_name)?;
    let none = Vec::with_capacity(alloc, members.len())?;
    let found = laid(none, members)?;
    Ok(found)
}

fn by_name(one: &(&str, Tree<'_>), other: &(&str, Tree<'_>)) -> Ordering
    ensures { result ≡ slice_cmp nat_cmp one.now.0.now other.now.0.now }
{
    one.0.cmp(other.0)
}

// Members in order, with each of the others put among them in turn.
fn laid<'a>(
    ordered: Vec<(&'a str, Tree<'a>)>,
    others: Vec<(&'a str, Tree<'a>)>,
) -> Result<Vec<(&'a str, Tree<'a>)>, AllocError>
    requires { IsSorted (tree_members ordered.items) }
    ensures { IfOk result (λ v. tree_members v.items
        ≡ laid (tree_members ordered.entry.items) others.entry.items) }
{
    let mut all = ordered;
    for (name, tree) in others {
        put_next(&mut all, name, tree)?;
    }
    Ok(all)
}

// One member more, which mostly comes last.
#[inline(always)]
fn put_next<'a>(
    all: &mut Vec<(&'a str, Tree<'a>)>,
    name: &'a str,
    tree: Tree<'a>,
) -> Result<(), AllocError>
    requires { IsSorted (tree_members all.old.items) }
    ensures { OnOk result (tree_members all.new.items
        ≡ put name.now (tree_view tree.entry) (tree_members all.old.items)) }
{
    if comes_last(all, name) {
        all.push((name, tree))?;
        return Ok(());
    }
    put_in_order(all, name, tree)?;
    Ok(())
}
