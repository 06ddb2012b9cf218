//! Documents that show a set of flags.

ghost use Rattle.std.specs.Prelude.{◌≡◌, ◌≤◌, ◌++◌, ℕ, List, true, false, IfOk, OnOk, OnErr};
ghost use Rattle.std.specs.Prelude.{MatchOption, length};
ghost use Rattle.std.specs.BTreeMap.{IsOrdered};
ghost use Rattle.std.specs.List.{splice};
ghost use Rattle.serde_json.specs.Written.{compact_text, members_text};
ghost use Rattle.fp_definition.specs.Key.{flag_cmp, key_bytes};
ghost use Rattle.fp_documents.specs.Document.{data_of, document, members_of};
ghost use Rattle.fp_documents.specs.Entries.{entries_of, flags_of};
ghost use Rattle.fp_documents.specs.Flags.{State};
ghost use Rattle.fp_documents.specs.declared.flags.Flag.{Flag};
ghost use Rattle.fp_documents.specs.Outline.{part, part_lengths, head, is_part_of, changed_after};
ghost use Rattle.fp_documents.specs.Outline.{Outlines, IsDocumentOf, IsAlike, HasAsMany, HasNewKey, MayTake};

use crate::flags::Flag;
use fp_base::put_quoted;
use fp_definition::{Definition, FlagKey};
use std::alloc::{AllocError, Global};
use std::collections::BTreeMap;

const HEAD: &[u8] = b"{\"flags\":{";

/// A set as canonical JSON: an object whose one member, `flags`, has each definition under its
/// key. A later set's document is made of it, as far as the flags are the same.
#[derive(Drop)]
pub struct Document {
    text: Vec<u8>,
    // How long each flag's part is: by these a later document finds what it copies.
    lengths: Vec<usize>,
    revision: u64,
}

impl Document {
    /// Its text, which is the canonical document of each set that this is a document of.
    pub fn text(&self) -> &[u8]
        ensures { (s : State) → IsDocumentOf self.now s → result.now ≡ document s.flags }
    {
        self.text.as_slice()
    }

    /// The same text by value.
    pub fn into_text(self) -> Vec<u8>
        ensures { (s : State) → IsDocumentOf self s → result.items ≡ document s.flags }
    {
        self.text
    }

    /// How many bytes its text has room for, which no clause says.
    pub fn room(&self) -> usize {
        self.text.capacity()
    }

    /// How many flags it shows.
    pub fn count(&self) -> usize
        ensures { result ≡ length self.now.lengths.items }
    {
        self.lengths.len()
    }

    /// The revision at which it was made.
    pub fn revision(&self) -> u64
        ensures { result ≡ self.now.revision }
    {
        self.revision
    }

    /// Makes the document of flags out of that of others, of which one at most was changed since.
    /// The new part takes the place of the old one and moves what stands behind it: a few steps for
    /// each flag up to the changed one, and that move.
    pub fn put_changed(
        &mut self,
        alloc: Global,
        flags: &BTreeMap<FlagKey, Flag>,
        revision: u64,
    ) -> Result<bool, AllocError>
        // It is a document of as many flags, one of which at most was changed after its revision;
        // where that one has the key that stood at its place, the others are the same.
        requires { (es : List (List ℕ × Flag)) × Outlines self.old es
            × HasAsMany self.old.revision es (entries_of flags.now.entries)
            × changed_after self.old.revision (entries_of flags.now.entries) ≤ 1 }
        // `Ok(true)`: it has become the document of these flags, at this revision.
        ensures put { IfOk result (λ b. b ≡ true
            → Outlines self.new (entries_of flags.now.entries) × (self.new.revision ≡ revision)) }
        // `Ok(false)`: the changed flag stands where another key stood, and the document is as
        // before.
        ensures other { IfOk result (λ b. b ≡ false
            → HasNewKey self.old (entries_of flags.now.entries) × IsAlike self.old self.new) }
        // An `Err` leaves the document as it was.
        ensures unchanged { OnErr result (IsAlike self.old self.new) }
    {
        if let Some(place) = first_changed(flags, self) {
            let mut part = Vec::with_capacity(alloc, place.len)?;
            let end = place.at + place.len;
            let old = &self.text[place.at..end];
            let definition = &place.flag.definition;
            let new = put_in_place_of(&mut part, old, place.later, place.key, definition)?;
            let Some(new) = new else {
                return Ok(false);
            };
            replace(&mut self.text, place.at, end, part)?;
            self.lengths[place.index] = new;
        }
        self.revision = revision;
        Ok(true)
    }
}

/// The document of flags at a revision, with how long each flag's part of it is; begun with room
/// for so many bytes. It costs its length.
pub fn document_of(
    alloc: Global,
    flags: &BTreeMap<FlagKey, Flag>,
    revision: u64,
    room: usize,
) -> Result<Document, AllocError>
    ensures { IfOk result (λ d. Outlines d (entries_of flags.now.entries)
        × (d.revision ≡ revision)) }
{
    let mut text = Vec::with_capacity(alloc, room)?;
    let mut lengths = Vec::with_capacity(alloc, flags.len())?;
    text.extend_from_slice(HEAD)?;
    put_members(&mut text, &mut lengths, flags)?;
    text.push(b'}')?;
    Ok(Document {
        text,
        lengths,
        revision,
    })
}

fn put_members(
    out: &mut Vec<u8>,
    lengths: &mut Vec<usize>,
    flags: &BTreeMap<FlagKey, Flag>,
) -> Result<(), AllocError>
    ensures members { OnOk result
        (out.new.items
        ≡ out.old.items ++ members_text false (members_of (entries_of flags.now.entries))) }
    ensures lengths { OnOk result
        (lengths.new.items
        ≡ lengths.old.items ++ part_lengths false (entries_of flags.now.entries)) }
{
    let mut later = false;
    for (key, flag) in flags.iter() {
        let len = put_member(out, later, key, &flag.definition)?;
        lengths.push(len)?;
        later = true;
    }
    out.push(b'}')?;
    Ok(())
}

// Puts a flag's part, and answers how long it is.
fn put_member(
    out: &mut Vec<u8>,
    later: bool,
    key: &FlagKey,
    definition: &Definition,
) -> Result<usize, AllocError>
    ensures part { (changed : ℕ) → OnOk result (out.new.items ≡ out.old.items
        ++ part later (key_bytes key.now, record { definition = definition.now; changed = changed })) }
    ensures length { (changed : ℕ) → IfOk result (λ n. n ≡ length
        (part later (key_bytes key.now, record { definition = definition.now; changed = changed }))) }
{
    let start = out.len();
    put_head(out, later, key)?;
    out.extend_from_slice(text_of(definition))?;
    Ok(out.len() - start)
}

// Puts it in place of an old part, where that is of the same key; else it answers `None`.
fn put_in_place_of(
    out: &mut Vec<u8>,
    old: &[u8],
    later: bool,
    key: &FlagKey,
    definition: &Definition,
) -> Result<Option<usize>, AllocError>
    ensures { (changed : ℕ) → IfOk result (λ o. MatchOption o
        (is_part_of later (key_bytes key.now) old.now ≡ false)
        (λ n. (is_part_of later (key_bytes key.now) old.now ≡ true)
        × (out.new.items ≡ out.old.items ++ part later
        (key_bytes key.now, record { definition = definition.now; changed = changed }))
        × (n ≡ length (part later
        (key_bytes key.now, record { definition = definition.now; changed = changed }))))) }
{
    let start = out.len();
    put_head(out, later, key)?;
    if !old.starts_with(&out[start..]) {
        return Ok(None);
    }
    out.extend_from_slice(text_of(definition))?;
    Ok(Some(out.len() - start))
}

// Puts what a flag's part begins with.
fn put_head(out: &mut Vec<u8>, later: bool, key: &FlagKey) -> Result<(), AllocError>
    ensures { OnOk result (out.new.items ≡ out.old.items ++ head later (key_bytes key.now)) }
{
    if later {
        out.push(b',')?;
    }
    put_quoted(out, key.as_str())?;
    out.push(b':')?;
    Ok(())
}

fn text_of(definition: &Definition) -> &[u8]
    ensures { result.now ≡ compact_text (data_of definition.now) }
{
    definition.text()
}

/// The document of flags, made of that of as many flags, some of which were changed since: what
/// stands between these is copied. `None` only where a changed flag stands where another key stood.
/// A few steps a flag, the changed parts, and a copy of the rest.
pub fn document_after(
    alloc: Global,
    flags: &BTreeMap<FlagKey, Flag>,
    revision: u64,
    room: usize,
    before: &Document,
) -> Result<Option<Document>, AllocError>
    // `before` is a document of as many flags, which are the same but for those changed after its
    // revision, where each of those has the key that stood at its place.
    requires { (es : List (List ℕ × Flag)) × Outlines before.now es
        × HasAsMany before.now.revision es (entries_of flags.now.entries) }
    ensures { IfOk result (λ o. MatchOption o
        (HasNewKey before.now (entries_of flags.now.entries))
        (λ d. Outlines d (entries_of flags.now.entries) × (d.revision ≡ revision))) }
{
    let mut text = Vec::with_capacity(alloc, room)?;
    let mut lengths = Vec::with_capacity(alloc, flags.len())?;
    let mut left = before.lengths.as_slice();
    // The earlier text is taken over, or replaced, up to `from`; its next part begins at `at`.
    let mut from = 0;
    let mut at = HEAD.len();
    let mut later = false;
    for (key, flag) in flags.iter() {
        let Some((len, rest)) = left.split_first() else {
            unreachable!();
        };
        left = rest;
        let end = at + *len;
        if flag.changed > before.revision {
            text.extend_from_slice(&before.text[from..at])?;
            let old = &before.text[at..end];
            let new = put_in_place_of(&mut text, old, later, key, &flag.definition)?;
            let Some(new) = new else {
                return Ok(None);
            };
            lengths.push(new)?;
            from = end;
        } else {
            lengths.push(*len)?;
        }
        at = end;
        later = true;
    }
    text.extend_from_slice(&before.text[from..])?;
    Ok(Some(Document {
        text,
        lengths,
        revision,
    }))
}

// Where a document has a flag's part, and the flag that is there now.
#[derive(Drop)]
struct Place<'a> {
    key: &'a FlagKey,
    flag: &'a Flag,
    later: bool,
    index: usize,
    at: usize,
    len: usize,
}

fn first_changed<'a>(flags: &'a BTreeMap<FlagKey, Flag>, document: &Document) -> Option<Place<'a>>
    requires { (es : List (List ℕ × Flag)) × Outlines document.now es
        × HasAsMany document.now.revision es (entries_of flags.now.entries)
        × changed_after document.now.revision (entries_of flags.now.entries) ≤ 1 }
    ensures { MatchOption result (Outlines document.now (entries_of flags.now.entries))
        (λ p. MayTake p document.now (entries_of flags.now.entries)) }
{
    let mut at = HEAD.len();
    let mut index = 0;
    let mut later = false;
    for (key, flag) in flags.iter() {
        let len = document.lengths[index];
        if flag.changed > document.revision {
            return Some(Place {
                key,
                flag,
                later,
                index,
                at,
                len,
            });
        }
        at += len;
        index += 1;
        later = true;
    }
    None
}

fn replace(text: &mut Vec<u8>, from: usize, to: usize, part: Vec<u8>) -> Result<(), AllocError>
    requires order { from ≤ to }
    requires within { to ≤ length text.old.items }
    ensures replaced { OnOk result (text.new.items ≡ splice text.old.items from to part.items) }
    ensures unchanged { OnErr result (text.new.items ≡ text.old.items) }
{
    drop(text.splice(from..to, part)?);
    Ok(())
}
