//! What follows from the definitions. Each law is the contract of a function that does nothing.

ghost use Rattle.fp_edit.specs.Laws as law;

/// Law: an edit comes to exactly one outcome on a set, accepted with the next state or refused with
/// a fault.
pub fn one_outcome()
    ensures { law.HasOneOutcome }
{}

/// Law: edits that are judged one after another lead where the changes of the accepted ones alone
/// lead.
pub fn refusals_leave_no_trace()
    ensures { law.LogTellsAll }
{}

/// Law: revisions number the accepted edits without a gap.
pub fn revisions_count_edits()
    // n accepted edits raise the revision by n.
    ensures count { law.RevisionsCountEdits }
    // Each revision from the start's to the last is that of a state on the way.
    ensures each { law.EachRevisionStands }
{}

/// Law: edits never lead a set that is within the limit of its size past it.
pub fn sets_keep_their_limit()
    ensures { law.KeepsItsLimit }
{}
