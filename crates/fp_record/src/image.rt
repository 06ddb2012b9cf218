//! Images: all flags of a set.

ghost use Rattle.std.specs.Prelude.{◌≡◌, ◌+◌, ◌<◌, ◌≤◌, ◌++◌, ◌⊎◌, List, ℕ, [], length, IfOk};
ghost use Rattle.std.specs.Prelude.{◌≢◌, IfErr, OnOk, Ok, Err};
ghost use Rattle.std.specs.Ordering.{is_lt};
ghost use Rattle.std.specs.FinMap.{entries as map_entries};
ghost use Rattle.fp_base.specs.Answer.{Gives};
ghost use Rattle.fp_base.specs.Bytes.{bytes_cmp};
ghost use Rattle.fp_definition.specs.Key.{key_bytes};
ghost use Rattle.fp_documents.specs.Entries.{entry_of, entries_of};
ghost use Rattle.fp_documents.specs.declared.flags.Flag.{Flag};
ghost use Rattle.fp_record.specs.declared.fault.RecordFault.TheVariants.{Memory};
ghost use Rattle.fp_record.specs.Fields.{Tells};
ghost use Rattle.fp_record.specs.WellFormed.{IsFlag, IsImage, IsOrdered};
ghost use Rattle.fp_record.specs.Reading.{any_revision, changed_at, flag_at, flag_count, flags_at};
ghost use Rattle.fp_record.specs.Reading.{image_at, image_in, key_above_at};
ghost use Rattle.fp_record.specs.Encoding.{encoding_of_image, encoding_of_flag};

use crate::fault::RecordFault;
use crate::fields::{definition_from, key_of, key_text_at, u32_at, u64_at};
use crate::writing::{put_definition, put_key, put_u32, put_u64};
use fp_definition::{Definition, FlagKey, LONGEST_KEY};
use fp_edit::{Flag, FlagSet, MOST_FLAGS};
use std::alloc::{AllocError, Global};
use std::marker::Model;

/// Flags under their keys, in ascending order of the keys' bytes.
#[derive(Drop)]
pub struct Image {
    flags: Vec<(FlagKey, Flag)>,
}

impl Model for Image {
    ghost use Rattle.std.specs.Prelude.{List, ℕ};
    ghost use Rattle.std.specs.Coded.{coded×, coded_ℕ, coded_list};
    ghost use Rattle.fp_documents.specs.Entries.{entries_of};
    ghost use Rattle.fp_edit.specs.Flags.{coded_flag};
    ghost use Rattle.fp_documents.specs.declared.flags.Flag.{Flag};
    ghost use Rattle.fp_record.specs.WellFormed.{IsOrdered};

    ghost Value = { List (List ℕ × Flag) };

    ghost coded = { coded_list (coded× (coded_list coded_ℕ) coded_flag) };

    ghost view = { λ a. entries_of a.flags.items };

    ghost invariant = { λ a. IsOrdered (entries_of a.flags.items) };
}

impl Image {
    /// The image of these flags.
    pub fn new(flags: Vec<(FlagKey, Flag)>) -> Image
        // At most `MOST_FLAGS` flags, by ascending keys, each key once, none changed at revision 0.
        requires { IsOrdered (entries_of flags.items) }
        ensures { result ≡ entries_of flags.items }
    {
        Image { flags }
    }

    /// The image of all flags of a set. It shares their definitions.
    pub fn of(alloc: Global, set: &FlagSet) -> Result<Image, AllocError>
        ensures { IfOk result (λ image. image ≡ map_entries set.now.flags) }
    {
        let flags = shared(alloc, set)?;
        Ok(Image { flags })
    }

    /// The flags with their keys.
    pub fn flags(&self) -> &[(FlagKey, Flag)]
        ensures flags { entries_of result.now ≡ self.now }
        // At most `MOST_FLAGS`, by ascending keys, each key once, none changed at revision 0.
        ensures ordered { IsOrdered self.now }
    {
        &self.flags
    }

    /// The flags with their keys, by value.
    pub fn into_flags(self) -> Vec<(FlagKey, Flag)>
        ensures flags { entries_of result.items ≡ self }
        // As of `flags`.
        ensures ordered { IsOrdered self }
    {
        self.flags
    }

    /// The image as bytes, for a slot to begin with.
    pub fn encode(&self, alloc: Global) -> Result<Vec<u8>, AllocError>
        // `Ok`: the image is one that has a spelling.
        ensures lawful { IfOk result (λ _. IsImage self.now) }
        // `Ok`: these bytes are its spelling.
        ensures spelled { IfOk result (λ bytes. bytes.items ≡ encoding_of_image self.now) }
    {
        spelled(alloc, &self.flags)
    }

    /// The image that the bytes spell, all of them.
    pub fn decode(alloc: Global, bytes: &[u8]) -> Result<Image, RecordFault>
        // `Ok`: an image that has a spelling, and the bytes are it, to the last.
        ensures spelled { IfOk result (λ image.
            IsImage image × (bytes.now ≡ encoding_of_image image)) }
        // Bytes that spell an image give that image, or `Memory`.
        ensures found { (image : List (List ℕ × Flag)) → IsImage image
            → bytes.now ≡ encoding_of_image image → (result ≡ Ok image) ⊎ (result ≡ Err Memory) }
        // `BadRecord`: at the first byte of the first field that can't stand there; of bytes left
        // over, the first.
        ensures place { Gives (λ image. image) Tells result
            (image_in any_revision bytes.now) }
    {
        whole_image(alloc, bytes)
    }
}

fn shared(alloc: Global, set: &FlagSet) -> Result<Vec<(FlagKey, Flag)>, AllocError>
    ensures entries { IfOk result (λ flags. entries_of flags.items ≡ map_entries set.now.flags) }
    ensures ordered { IfOk result (λ flags. IsOrdered (entries_of flags.items)) }
{
    let count = set.len();
    let mut flags = Vec::with_capacity(alloc, count)?;
    for (key, flag) in set.iter() {
        let definition = flag.definition.try_copy()?;
        let changed = flag.changed;
        flags.push((
            key.try_copy()?,
            Flag {
                definition,
                changed,
            },
        ))?;
    }
    Ok(flags)
}

#[tactic(auto, unfolding(crate::specs::Encoding::encoding_of_flag))]
fn put_flag(out: &mut Vec<u8>, key: &FlagKey, flag: &Flag) -> Result<(), AllocError>
    ensures written { OnOk result
        (out.new.items ≡ out.old.items ++ encoding_of_flag (key_bytes key.now, flag.now)) }
    ensures lawful { OnOk result (0 < flag.now.changed → IsFlag (key_bytes key.now, flag.now)) }
{
    put_key(out, key)?;
    put_u64(out, flag.changed)?;
    put_definition(out, &flag.definition)
}

fn spelled(alloc: Global, flags: &[(FlagKey, Flag)]) -> Result<Vec<u8>, AllocError>
    requires { IsOrdered (entries_of flags.now) }
    ensures lawful { IfOk result (λ _. IsImage (entries_of flags.now)) }
    ensures spelled { IfOk result (λ bytes.
        bytes.items ≡ encoding_of_image (entries_of flags.now)) }
{
    let mut out = Vec::new(alloc);
    put_u32(&mut out, flags.len() as u32)?;
    for flag in flags {
        put_flag(&mut out, &flag.0, &flag.1)?;
    }
    Ok(out)
}

fn is_above(text: &str, before: &[u8]) -> bool
    ensures { result ≡ is_lt (bytes_cmp before.now text.now) }
{
    before.cmp(text.as_bytes()).is_lt()
}

#[tactic(auto, unfolding(crate::specs::Reading::key_above_at))]
fn key_text_above<'a>(
    bytes: &'a [u8],
    before: &[u8],
    at: usize,
) -> Result<(&'a str, usize), RecordFault>
    requires { at ≤ length bytes.now }
    ensures value { Gives (λ x. (x.0.now, x.1)) Tells result
        (key_above_at before.now bytes.now at) }
    ensures within { IfOk result (λ x. x.1 ≤ length bytes.now) }
    ensures short { IfOk result (λ x. (0 < length x.0.now) × (length x.0.now ≤ LONGEST_KEY)) }
    ensures no_memory { IfErr result (λ e. e ≢ Memory) }
{
    let (text, next) = key_text_at(bytes, at)?;
    if !is_above(text, before) {
        return Err(RecordFault::BadRecord { at: at + 2 });
    }
    Ok((text, next))
}

#[tactic(auto, unfolding(crate::specs::Reading::changed_at))]
fn changed_from(bytes: &[u8], newest: u64, at: usize) -> Result<(u64, usize), RecordFault>
    requires { at ≤ length bytes.now }
    ensures value { Gives (λ x. x) Tells result (changed_at newest bytes.now at) }
    ensures within { IfOk result (λ x. x.1 ≤ length bytes.now) }
    ensures no_memory { IfErr result (λ e. e ≢ Memory) }
{
    let (changed, next) = u64_at(bytes, at)?;
    if changed == 0 || changed > newest {
        return Err(RecordFault::BadRecord { at });
    }
    Ok((changed, next))
}

// A flag that was read, its key's text, and the place behind it.
#[derive(Drop)]
struct FoundFlag<'a> {
    flag: (FlagKey, Flag),
    text: &'a str,
    next: usize,
}

// The flag at this place, under a key above the one before, changed at the newest revision or
// before. Its definition is read beside another, if there is one that it may be like.
#[tactic(auto, unfolding(crate::specs::Reading::flag_at))]
fn flag_from<'a>(
    alloc: Global,
    bytes: &'a [u8],
    newest: u64,
    before: &[u8],
    other: Option<&Definition>,
    at: usize,
) -> Result<FoundFlag<'a>, RecordFault>
    requires { at ≤ length bytes.now }
    ensures value { Gives (λ x. (entry_of x.flag, (x.text.now, x.next))) Tells result
        (flag_at newest bytes.now (before.now, at)) }
    ensures within { IfOk result (λ x. x.next ≤ length bytes.now) }
{
    let (text, next) = key_text_above(bytes, before, at)?;
    let (changed, next) = changed_from(bytes, newest, next)?;
    let (definition, next) = definition_from(alloc, bytes, next, other)?;
    let key = key_of(alloc, text)?;
    let flag = (
        key,
        Flag {
            definition,
            changed,
        },
    );
    Ok(FoundFlag { flag, text, next })
}

// The definition of the last of these flags.
fn last_of(flags: &[(FlagKey, Flag)]) -> Option<&Definition> {
    match flags.last() {
        Some(last) => Some(&last.1.definition),
        None => None,
    }
}

#[tactic(auto, unfolding(crate::specs::Reading::many_from, crate::specs::Reading::flags_at))]
fn flags_from(
    alloc: Global,
    bytes: &[u8],
    newest: u64,
    count: u32,
    at: usize,
) -> Result<(Vec<(FlagKey, Flag)>, usize), RecordFault>
    requires { at ≤ length bytes.now }
    ensures value { Gives (λ x. (entries_of x.0.items, x.1)) Tells result
        (flags_at newest count bytes.now at) }
    ensures count { IfOk result (λ x. length x.0.items ≡ count) }
    ensures within { IfOk result (λ x. x.1 ≤ length bytes.now) }
{
    let mut flags = Vec::new(alloc);
    let mut before: &[u8] = &[];
    let mut place = at;
    for _ in 0..count {
        let found = flag_from(alloc, bytes, newest, before, last_of(&flags), place)?;
        flags.push(found.flag)?;
        before = found.text.as_bytes();
        place = found.next;
    }
    Ok((flags, place))
}

// How many flags an image has, and the place of the first.
#[tactic(auto, unfolding(crate::specs::Reading::flag_count))]
fn flag_count_from(bytes: &[u8]) -> Result<(u32, usize), RecordFault>
    ensures value { Gives (λ x. x) Tells result (flag_count bytes.now) }
    ensures within { IfOk result (λ x. x.1 ≤ length bytes.now) }
    ensures no_memory { IfErr result (λ e. e ≢ Memory) }
{
    let (count, next) = u32_at(bytes, 0)?;
    if count as usize > MOST_FLAGS {
        return Err(RecordFault::BadRecord { at: 0 });
    }
    Ok((count, next))
}

/// The flags of the image at the front of the bytes, changed at the newest revision or before, and
/// the place behind them. For who makes a set of them.
#[tactic(auto, unfolding(crate::specs::Reading::image_at))]
pub fn flags_of_image(
    alloc: Global,
    bytes: &[u8],
    newest: u64,
) -> Result<(Vec<(FlagKey, Flag)>, usize), RecordFault>
    // The flags that stand there and the place behind them, or the first field that can't stand
    // there, or `Memory`.
    ensures value { Gives (λ x. (entries_of x.0.items, x.1)) Tells result
        (image_at newest bytes.now) }
    // `Ok`: the place behind them lies within the bytes, or at their end.
    ensures within { IfOk result (λ x. x.1 ≤ length bytes.now) }
{
    let (count, at) = flag_count_from(bytes)?;
    let (flags, next) = flags_from(alloc, bytes, newest, count, at)?;
    Ok((flags, next))
}

#[tactic(auto, unfolding(crate::specs::Reading::image_in))]
fn whole_image(alloc: Global, bytes: &[u8]) -> Result<Image, RecordFault>
    ensures { Gives (λ image. image) Tells result (image_in any_revision bytes.now) }
{
    let (flags, next) = flags_of_image(alloc, bytes, u64::MAX)?;
    if next < bytes.len() {
        return Err(RecordFault::BadRecord { at: next });
    }
    Ok(Image { flags })
}
