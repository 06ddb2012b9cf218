//! What follows from the definitions.

ghost use Rattle.fp_shown.specs.Laws as law;

/// Law: lawful sets of one revision and one document give the same reply to each request at each
/// moment: a reply tells of keys, definitions and the revision, and of nothing else that a set
/// keeps. Does nothing when it runs.
pub fn same_document_same_reply()
    ensures { law.SameDocumentSameReply }
{}

/// Law: each reply over what is shown of a frame that carries what was handed of a front is the
/// reply over the front's set. So no crash takes back what is shown: subscribers are handed settled
/// fronts alone.
pub fn shows_what_was_handed()
    ensures { law.ShowsWhatWasHanded }
{}
