//! Where edits go.

ghost use Rattle.std.specs.Prelude.{◌≡◌, ◌⊎◌, ◌↔◌, IfOk, OnOk, OnErr, IfErr, IsTrue, MatchResult};
ghost use Rattle.fp_edit.specs.Flags.{State};
ghost use Rattle.fp_edit.specs.Following.{change_of};
ghost use Rattle.fp_edit.specs.Edits.{Change, proposal_of};
ghost use Rattle.fp_edit.specs.Admits.{Admits, IsRefusedOrWanting, accepted};
ghost use Rattle.fp_committer.specs.declared.fault.CommitFault.{CommitFault};

use crate::CommitFault;
use fp_edit::{Edit, EditFault, FlagSet};

/// Flags that take one edit after another, and keep them in batches.
///
/// What is taken by `submit` waits until `commit` keeps it, and no one is told of it before.
/// Nothing is committed while a step is owed: `go_on` takes it before.
pub trait EditStore {
    // The flags after all edits that were taken.
    ghost state: { Self → State };

    // What a crash may leave: the flags that are kept, or those
    // after some first of the edits that wait.
    ghost may_stand: { Self → State → Type 0 };

    // The change may wait together with those that do.
    ghost has_place: { Self → Change → Type 0 };

    // What keeps the flags may become this, as long as it doesn't fail.
    ghost continues_to: { Self → Self → Type 0 };

    // It may fail to keep what waits, for that reason, and become that.
    ghost fails_on: { CommitFault → Self → Self → Type 0 };

    // Whatever a crash leaves at any moment from one to the other is flags of this kind.
    ghost leaves: { Self → Self → (State → Type 0) → Type 0 };

    // Nothing is done beside the edits.
    ghost rests: { Self → Type 0 };

    // An edit waits until `commit` keeps it.
    ghost waits: { Self → Type 0 };

    // A step of what is done beside the edits is owed.
    ghost owes: { Self → Type 0 };

    // It becomes that by the step that was owed.
    ghost steps: { Self → Self → Type 0 };

    ghost leads_to_itself: { (s : Self) → continues_to s s };

    ghost leads_on: { (a b c : Self) → continues_to a b → continues_to b c → continues_to a c };

    ghost leaves_on: { (a b c : Self) (P : State → Type 0) → leaves a b P → leaves b c P
        → leaves a c P };

    ghost leaves_as: { (a b : Self) (P Q : State → Type 0)
        → ((s : State) → P s → Q s) → leaves a b P → leaves a b Q };

    /// Whether an edit may wait together with those that do, exactly. In a `DiskSession` it may
    /// where that takes edits and this one makes one batch with those that wait; in a `FlagSet`
    /// always.
    fn joins(&self, edit: &Edit) -> bool
        ensures { IsTrue result ↔ has_place self.now (change_of edit.now) };

    /// Judges an edit by the flags, and answers the revision that it makes. It waits then until
    /// `commit` keeps it.
    fn submit(&mut self, edit: Edit) -> Result<u64, EditFault>
        // The edit may wait together with those that do.
        requires place { has_place self.old (change_of edit) }
        // `Ok`: the flags accept the edit, and are what it makes of them.
        ensures admitted { OnOk result
            (Admits (state self.old) (proposal_of edit) (accepted (state self.new))) }
        // `Ok`: the number is the revision that it makes.
        ensures revision { IfOk result (λ r. r ≡ (state self.new).revision) }
        // `Err`: the first refusal that applies, or `Memory` where none does.
        ensures refused { IfErr result (IsRefusedOrWanting (state self.old) (proposal_of edit)) }
        // An `Err` changes no flags.
        ensures unchanged { OnErr result (state self.new ≡ state self.old) }
        // No flags may stand but those that might before, and those after the edit.
        ensures ahead { (s : State) → may_stand self.new s
            → may_stand self.old s ⊎ (s ≡ state self.new) }
        // At any moment a crash leaves flags that might stand before (H for a `DiskSession`).
        ensures any_moment { leaves self.old self.new (may_stand self.old) }
        // A step is owed exactly where one was before.
        ensures owes { owes self.new ↔ owes self.old }
        // What keeps the flags goes on, whatever is answered.
        ensures goes_on { continues_to self.old self.new };

    /// Keeps what waits. A `DiskSession` seals it in batches that are as long as they may be.
    fn commit(&mut self) -> Result<(), CommitFault>
        // No step is owed.
        requires paid { owes self.old → ⊥ }
        // The flags stay, whatever is answered.
        ensures same { state self.new ≡ state self.old }
        // `Ok`: what waited is kept: no flags may stand but these.
        ensures kept { OnOk result ((s : State) → may_stand self.new s → s ≡ state self.new) }
        // `Ok`: nothing waits, so that any edit may.
        ensures place { OnOk result ((c : Change) → has_place self.new c) }
        // `Ok`: a step is owed exactly where an edit waited.
        ensures owes { OnOk result (owes self.new ↔ waits self.old) }
        // No flags may stand that might not before.
        ensures ahead { (s : State) → may_stand self.new s → may_stand self.old s }
        // At any moment a crash leaves flags that might stand before (H for a `DiskSession`).
        ensures any_moment { leaves self.old self.new (may_stand self.old) }
        // `Ok`: what keeps the flags goes on (a `DiskSession`: `Keeps`); `Err`: it fails for a
        // reason that it may have (`Fails`).
        ensures fate { MatchResult result (λ _. continues_to self.old self.new)
            (λ f. fails_on f self.old self.new) };

    /// Goes on with what is done beside the edits, by one step where one is due. A `DiskSession`
    /// takes steps of a compaction, which it begins where its slot runs short or is of the first
    /// version; it owes one at first, and behind what `commit` sealed.
    fn go_on(&mut self) -> Result<(), CommitFault>
        // The flags stay, whatever is answered.
        ensures same { state self.new ≡ state self.old }
        // `Ok`: an edit that might wait may.
        ensures place { OnOk result ((c : Change) → has_place self.old c → has_place self.new c) }
        // `Ok`: where a step was owed it was taken.
        ensures step { OnOk result (owes self.old → steps self.old self.new) }
        // `Ok`: where none was owed all is as before.
        ensures no_step { OnOk result ((owes self.old → ⊥) → self.new ≡ self.old) }
        // `Ok`: no step is owed any more.
        ensures owes_none { OnOk result (owes self.new → ⊥) }
        // No flags may stand that might not before.
        ensures ahead { (s : State) → may_stand self.new s → may_stand self.old s }
        // At any moment a crash leaves flags that might stand before (H for a `DiskSession`).
        ensures any_moment { leaves self.old self.new (may_stand self.old) }
        // `Ok`: what keeps the flags goes on (a `DiskSession`: `Keeps`); `Err`: it fails for a
        // reason that it may have (`Fails`).
        ensures fate { MatchResult result (λ _. continues_to self.old self.new)
            (λ f. fails_on f self.old self.new) };

    /// Ends what is done beside the edits: a `DiskSession` takes the steps of its compaction that
    /// are left.
    fn rest(&mut self) -> Result<(), CommitFault>
        // The flags stay, whatever is answered.
        ensures same { state self.new ≡ state self.old }
        // `Ok`: nothing goes on beside the edits.
        ensures rests { OnOk result (rests self.new) }
        // No flags may stand that might not before.
        ensures ahead { (s : State) → may_stand self.new s → may_stand self.old s }
        // At any moment a crash leaves flags that might stand before (H for a `DiskSession`).
        ensures any_moment { leaves self.old self.new (may_stand self.old) }
        // `Ok`: what keeps the flags goes on (a `DiskSession`: `Keeps`); `Err`: it fails for a
        // reason that it may have (`Fails`).
        ensures fate { MatchResult result (λ _. continues_to self.old self.new)
            (λ f. fails_on f self.old self.new) };

    /// Lends the flags as they are, with all edits that were taken.
    fn flags(&self) -> &FlagSet
        // They are those of the store.
        ensures value { result.now ≡ state self.now }
        // A crash now leaves flags that may stand.
        ensures still { leaves self.now self.now (may_stand self.now) };
}

impl EditStore for FlagSet {
    ghost state = { λ s. s };

    ghost may_stand = { λ s t. t ≡ s };

    ghost has_place = { λ s c. Unit {0} };

    ghost continues_to = { λ a b. Unit {0} };

    ghost fails_on = { λ f a b. ⊥ };

    ghost leaves = { λ a b P. Unit {0} };

    ghost rests = { λ s. Unit {0} };

    ghost waits = { λ s. ⊥ };

    ghost owes = { λ s. ⊥ };

    ghost steps = { λ a b. ⊥ };

    ghost leads_to_itself = { λ s. tt };

    ghost leads_on = { λ a b c h k. tt };

    ghost leaves_on = { λ a b c P h k. tt };

    ghost leaves_as = { λ a b P Q f h. tt };

    fn joins(&self, edit: &Edit) -> bool {
        true
    }

    fn submit(&mut self, edit: Edit) -> Result<u64, EditFault> {
        match self.admit(edit) {
            Ok(revision) => Ok(revision),
            Err((fault, _edit)) => Err(fault),
        }
    }

    fn commit(&mut self) -> Result<(), CommitFault> {
        Ok(())
    }

    fn go_on(&mut self) -> Result<(), CommitFault> {
        Ok(())
    }

    fn rest(&mut self) -> Result<(), CommitFault> {
        Ok(())
    }

    fn flags(&self) -> &FlagSet {
        self
    }
}
