//! What follows from the definitions. Each law is the contract of a function that does nothing.

ghost use Rattle.fp_ofrep.specs.Laws as law;

/// Law: the reply for one flag looks at no other flag, and is the same by a path and by the key
/// itself. Does nothing when it runs.
pub fn one_flag_is_looked_at()
    // One flag's reply is the same over all sets of one revision that have this flag, whatever
    // others they have.
    ensures others { law.LooksAtOneFlag }
    // A `POST` at a path whose segment decodes to a key of UTF-8 has the reply for that key itself.
    ensures key { law.KeyOrSegment }
{}

/// Law: the list of all flags and the replies for each agree. Does nothing when it runs.
pub fn all_flags_agree_with_each()
    // In one set, context and moment: what the list has of a key is the body of the reply for that
    // flag, or its failure where its rule names no variant, and else nothing.
    ensures { law.ListHasEachFlag }
{}

/// Law: over the same flags, replies differ in the revision alone, so their tags and bodies are
/// equal. Does nothing when it runs.
pub fn same_flags_have_the_same_tag()
    ensures { law.SameFlagsSameTag }
{}
