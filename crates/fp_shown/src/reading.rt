//! From a document to the set that it shows, flag by flag. A flag's text is read by itself, so that
//! no tree of the whole is made.

ghost use Rattle.std.specs.Prelude.{◌≡◌, ◌+◌, ◌<◌, ◌≤◌, ℕ, List, true, false, Some, Err, IfOk};
ghost use Rattle.std.specs.Prelude.{OnOk};
ghost use Rattle.std.specs.FinMap as map;
ghost use Rattle.std.specs.Option.{option_copied};
ghost use Rattle.std.specs.Str.{IsUtf8, bytes_eq};
ghost use Rattle.json.specs.Print.{quoted};
ghost use Rattle.serde_json.specs.Data.{string};
ghost use Rattle.serde_json.specs.Find.{as_str};
ghost use Rattle.fp_base.specs.Json.{json_of};
ghost use Rattle.fp_base.specs.TreeView.{tree_view};
ghost use Rattle.fp_definition.specs.Key.{is_key, key_bytes};
ghost use Rattle.fp_documents.specs.Document.{document as document_of};
ghost use Rattle.fp_documents.specs.Outline.{rest_text};
ghost use Rattle.fp_edit.specs.Flags.{State, size};
ghost use Rattle.fp_shown.specs.Reading.{LONGEST_FLAG, PutsFlag, SpellsFlag, told};
ghost use Rattle.fp_shown.specs.Sets.{HasNoSet, IsLawful, IsSetOf};
ghost use Rattle.fp_shown.specs.declared.fault.ShownFault.TheVariants.{NoSet};

use crate::fault::ShownFault;
use crate::lawful::every_set_is_lawful;
use crate::members::{Member, member_in};
use bumpalo::Bump;
use fp_base::{Tree, read_tree};
use fp_definition::{Definition, FlagKey, KeyFault, LONGEST_DEFINITION, LONGEST_KEY};
use fp_edit::{FLAG_FRAME, Flag, FlagSet, IMAGE_HEAD, MOST_FLAGS, REVISIONS_END, definition_under};
use json::Scratch;
use std::alloc::{AllocError, Global};
use std::collections::btree_map::Iter;

/// The limit of a shown set's image, in bytes: the most flags that a set has, each of the longest
/// key and definition, fit.
pub const SHOWN_LIMIT: u64 = IMAGE_HEAD
    + MOST_FLAGS as u64 * (FLAG_FRAME as u64 + LONGEST_KEY as u64 + LONGEST_DEFINITION as u64);

// The longest text in quotes that is a key's: each of its bytes is escaped.
const LONGEST_NAME: usize = 6 * LONGEST_KEY + 2;

const HEAD: &[u8] = b"{\"flags\":{";

const END: &[u8] = b"}}";

/// The set of this revision and document. At most one set is held at a time, and beside it the text
/// of one document. Definitions are read beside those of a set that is known, if there is one.
pub(crate) fn set_of(
    alloc: Global,
    revision: u64,
    document: &[u8],
    known: Option<&FlagSet>,
) -> Result<FlagSet, ShownFault>
    ensures found { IfOk result (IsSetOf revision document.now) }
    ensures lawful { IfOk result IsLawful }
    ensures refused { result ≡ Err NoSet → HasNoSet revision document.now }
{
    if revision >= REVISIONS_END {
        return Err(ShownFault::NoSet);
    }
    let Some(flags) = document.strip_prefix(HEAD) else {
        return Err(ShownFault::NoSet);
    };
    let mut set = FlagSet::at_revision(alloc, revision, SHOWN_LIMIT);
    put_flags(alloc, &mut set, flags, known)?;
    if is_document_of(&set, document)? {
        every_set_is_lawful(&set);
        return Ok(set);
    }
    Err(ShownFault::NoSet)
}

// Whether a set's own document is this one.
fn is_document_of(set: &FlagSet, document: &[u8]) -> Result<bool, AllocError>
    ensures { IfOk result (λ b. b ≡ bytes_eq (document_of set.now.flags) document.now) }
{
    let text = set.document()?;
    Ok(text.as_slice() == document)
}

// Puts the flags of a text into an empty set, up to the document's end.
fn put_flags(
    alloc: Global,
    set: &mut FlagSet,
    text: &[u8],
    known: Option<&FlagSet>,
) -> Result<(), ShownFault>
    requires empty { set.old.flags ≡ map.empty }
    requires limit { set.old.limit ≡ SHOWN_LIMIT }
    ensures revision { OnOk result (set.new.revision ≡ set.old.revision) }
    ensures put { OnOk result ((s : State) → IsLawful s → s.revision ≡ set.old.revision
        → text.now ≡ rest_text false (map.entries s.flags) → told set.new.flags ≡ told s.flags) }
    ensures refused { result ≡ Err NoSet → (s : State) → IsLawful s
        → s.revision ≡ set.old.revision → text.now ≡ rest_text false (map.entries s.flags) → ⊥ }
{
    let mut scratch = Scratch::new(alloc);
    let mut before = flags_in(known);
    let mut rest = text;
    let mut later = false;
    for _ in 0..MOST_FLAGS {
        if rest == END {
            return Ok(());
        }
        let like = next_in(&mut before);
        let Some(member) = member_in(rest, later, like) else {
            return Err(ShownFault::NoSet);
        };
        put_flag(alloc, set, &member, known, &mut scratch)?;
        rest = member.rest;
        later = true;
    }
    if rest == END {
        return Ok(());
    }
    Err(ShownFault::NoSet)
}

// The flags of a set that is known, in their order: those of a document that follows are mostly the
// same at the same places.
fn flags_in(known: Option<&FlagSet>) -> Option<Iter<'_, FlagKey, Flag>> {
    match known {
        Some(set) => Some(set.iter()),
        None => None,
    }
}

// The definition of the next of these flags.
fn next_in<'k>(flags: &mut Option<Iter<'k, FlagKey, Flag>>) -> Option<&'k Definition> {
    let Some(flags) = flags else {
        return None;
    };
    match flags.next() {
        Some((_, flag)) => Some(&flag.definition),
        None => None,
    }
}

// Puts a member's flag. What is too long for one isn't read.
fn put_flag(
    alloc: Global,
    set: &mut FlagSet,
    member: &Member<'_>,
    known: Option<&FlagSet>,
    scratch: &mut Scratch,
) -> Result<(), ShownFault>
    requires few { map.len set.old.flags < MOST_FLAGS }
    requires room { size set.old.flags + LONGEST_FLAG ≤ set.old.limit }
    ensures put { OnOk result
        (PutsFlag set.old member.now.name.now member.now.value.now set.new) }
    ensures refused { result ≡ Err NoSet → 1 ≤ set.old.revision → (key : List ℕ)
        → SpellsFlag member.now.name.now member.now.value.now key → ⊥ }
{
    let revision = set.revision();
    if revision == 0 {
        return Err(ShownFault::NoSet);
    }
    if member.value.len() > LONGEST_DEFINITION {
        return Err(ShownFault::NoSet);
    }
    let key = key_in(alloc, member.name, scratch)?;
    let other = definition_under(known, &key);
    let Some(definition) = Definition::from_text_beside(alloc, member.value, other)? else {
        return Err(ShownFault::NoSet);
    };
    set.restore(
        key,
        Flag {
            definition,
            changed: revision,
        },
    )?;
    Ok(())
}

// The key that a text in quotes spells.
fn key_in(alloc: Global, name: &[u8], scratch: &mut Scratch) -> Result<FlagKey, ShownFault>
    ensures spelled { IfOk result (λ k. json_of name.now ≡ Some (string (key_bytes k))) }
    ensures long { IfOk result (λ k. is_key (key_bytes k) ≡ true) }
    ensures refused { result ≡ Err NoSet → (key : List ℕ) → is_key key ≡ true → IsUtf8 key
        → name.now ≡ quoted key → ⊥ }
{
    if name.len() > LONGEST_NAME {
        return Err(ShownFault::NoSet);
    }
    let arena = Bump::new(alloc);
    let Some(tree) = read_tree(alloc, &arena, name, scratch)? else {
        return Err(ShownFault::NoSet);
    };
    let Some(text) = text_of(&tree) else {
        return Err(ShownFault::NoSet);
    };
    key_of(alloc, text)
}

fn text_of<'a>(tree: &Tree<'a>) -> Option<&'a str>
    ensures { option_copied result ≡ as_str (tree_view tree.now) }
{
    match tree {
        Tree::String(text) => Some(text),
        _ => None,
    }
}

fn key_of(alloc: Global, text: &str) -> Result<FlagKey, ShownFault>
    ensures key { IfOk result (λ k. key_bytes k ≡ text.now) }
    ensures long { IfOk result (λ _. is_key text.now ≡ true) }
    ensures refused { result ≡ Err NoSet → is_key text.now ≡ false }
{
    match FlagKey::new(alloc, text) {
        Ok(key) => Ok(key),
        Err(KeyFault::BadKey) => Err(ShownFault::NoSet),
        Err(KeyFault::Memory) => Err(ShownFault::Memory),
    }
}
