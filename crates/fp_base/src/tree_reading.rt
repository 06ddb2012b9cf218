//! From bytes to a tree. The members of an object are put in ascending order of their names as they
//! are read, the last of repeated ones alone, and reading ends where the bytes are no JSON.

ghost use Rattle.std.specs.Prelude.{◌≡◌, ◌<◌, ◌≢◌, length, None, Some, Err, IfOk, IfSome, OnOk, option_map};
ghost use Rattle.json.specs.Json.{value, items, members};
ghost use Rattle.serde_json.specs.Data.{no_members};
ghost use Rattle.serde_json.specs.Read.{of_json, of_items, of_members, converted};
ghost use Rattle.fp_base.specs.Json.{json_of};
ghost use Rattle.fp_base.specs.Ordered.{IsOrdered, AreOrdered, MembersAreOrdered};
ghost use Rattle.fp_base.specs.Sorted.{IsSorted};
ghost use Rattle.fp_base.specs.TreeView.{tree_view, tree_items, tree_members};

use crate::gathering::Gathered;
use crate::numbers::{number_in, number_tree};
use crate::spares::Spares;
use crate::tree::Tree;
use crate::utf8::utf8_text;
use bumpalo::Bump;
use json::{Invalid, Reader, Scratch, Token};
use std::alloc::{AllocError, AllocFailed, Global};

// What `read_json` reads nests at most this deep.
const DEEPEST_JSON: usize = 127;

// Why there is no tree.
#[derive(Drop)]
enum Stop {
    NotJson,
    Memory,
}

impl From<Invalid> for Stop {
    ghost use Rattle.fp_base.specs.declared.tree_reading.Stop.TheVariants.{NotJson};

    ghost from_gives = { λ _ e. e ≡ NotJson };

    fn from(_: Invalid) -> Stop {
        Stop::NotJson
    }
}

impl From<AllocError> for Stop {
    ghost use Rattle.fp_base.specs.declared.tree_reading.Stop.TheVariants.{Memory};

    ghost from_gives = { λ _ e. e ≡ Memory };

    fn from(_: AllocError) -> Stop {
        Stop::Memory
    }
}

impl<T: Drop> From<AllocFailed<T>> for Stop {
    ghost use Rattle.fp_base.specs.declared.tree_reading.Stop.TheVariants.{Memory};

    ghost from_gives = { λ _ e. e ≡ Memory };

    fn from(_: AllocFailed<T>) -> Stop {
        Stop::Memory
    }
}

// Where lists and objects stand once they are read, and vectors for those that are being read.
#[derive(Drop)]
struct Room<'a> {
    alloc: Global,
    arena: &'a Bump,
    lists: Spares<'a, Tree<'a>>,
    objects: Spares<'a, (&'a str, Tree<'a>)>,
}

/// The tree of the data that the bytes spell, which borrows its texts; `None` exactly where they
/// are no JSON. A number out of range is no JSON; of members of one name the last counts.
///
/// Lists and objects stand in the arena, each in as much room as it has items or members. The values
/// of members that a later one replaces stay there, too.
#[tactic(auto, using(crate::proofs::Parsed::whole_texts, crate::proofs::Reading::json_of_refused))]
pub fn read_tree<'a>(
    alloc: Global,
    arena: &'a Bump,
    bytes: &'a [u8],
    scratch: &'a mut Scratch,
) -> Result<Option<Tree<'a>>, AllocError>
    ensures value { IfOk result (λ o. option_map tree_view o ≡ json_of bytes.now) }
    // `Ok`: the tree is ordered.
    ensures ordered { IfOk result (λ o. IfSome o (λ tree. IsOrdered (tree_view tree))) }
{
    let Some(text) = utf8_text(bytes) else {
        return Ok(None);
    };
    let mut reader = Reader::new(text, scratch)?;
    let mut room = Room {
        alloc,
        arena,
        lists: Spares::new(arena),
        objects: Spares::new(arena),
    };
    match read(&mut room, &mut reader, DEEPEST_JSON) {
        Ok(tree) => {
            if reader.next().is_some() {
                return Ok(None);
            }
            Ok(Some(tree))
        }
        Err(Stop::NotJson) => Ok(None),
        Err(Stop::Memory) => Err(AllocError),
    }
}

// The next value of the reader. Lists and objects may nest `depth` deep.
#[cycle(read)]
#[tactic(auto, using(crate::proofs::Views::scalars))]
fn read<'a>(room: &mut Room<'a>, reader: &mut Reader<'a>, depth: usize) -> Result<Tree<'a>, Stop>
    ensures ok { IfOk result (λ t.
        converted of_json (value depth reader.old) ≡ Some (tree_view t, reader.new)) }
    ensures ordered { IfOk result (λ t. IsOrdered (tree_view t)) }
    ensures shorter { OnOk result (length reader.new < length reader.old) }
    ensures refused { result ≡ Err Stop.NotJson
        → converted of_json (value depth reader.old) ≡ None }
{
    let token = reader.next().ok_or(Invalid)?;
    match token {
        Token::String(text) => Ok(Tree::String(text)),
        Token::Number(text) => match number_in(text) {
            Some(number) => Ok(number_tree(&number)),
            None => Err(Stop::NotJson),
        },
        Token::Bool(b) => Ok(Tree::Bool(b)),
        Token::Null => Ok(Tree::Null),
        Token::EndObject | Token::EndArray | Token::Key(_) | Token::Bad => Err(Stop::NotJson),
        Token::BeginArray => {
            if depth == 0 {
                return Err(Stop::NotJson);
            }
            Ok(Tree::Array(read_items(room, reader, depth - 1)?))
        }
        Token::BeginObject => {
            if depth == 0 {
                return Err(Stop::NotJson);
            }
            Ok(Tree::Object(read_members(room, reader, depth - 1)?))
        }
    }
}

#[cycle(read)]
#[tactic(auto, using(crate::proofs::Parsed::item_turns, crate::proofs::Read::items_read))]
fn read_items<'a>(
    room: &mut Room<'a>,
    reader: &mut Reader<'a>,
    depth: usize,
) -> Result<&'a [Tree<'a>], Stop>
    ensures ok { IfOk result (λ v.
        converted of_items (items (value depth) (length reader.old) reader.old)
        ≡ Some (tree_items v.now, reader.new)) }
    ensures ordered { IfOk result (λ v. AreOrdered (tree_items v.now)) }
    ensures shorter { OnOk result (length reader.new < length reader.old) }
    ensures refused { result ≡ Err Stop.NotJson
        → converted of_items (items (value depth) (length reader.old) reader.old) ≡ None }
{
    let mut found = room.lists.take(room.alloc);
    'items: while !reader.take_end_array() {
        let item = read(room, reader, depth)?;
        found.push(item)?;
    }
    let items = room.arena.try_alloc_slice_copy(&found)?;
    room.lists.keep(found);
    Ok(items)
}

#[cycle(read)]
fn read_members<'a>(
    room: &mut Room<'a>,
    reader: &mut Reader<'a>,
    depth: usize,
) -> Result<&'a [(&'a str, Tree<'a>)], Stop>
    ensures ok { IfOk result (λ v.
        converted (λ ms. of_members ms no_members)
        (members (value depth) (length reader.old) reader.old)
        ≡ Some (tree_members v.now, reader.new)) }
    ensures sorted { IfOk result (λ v. IsSorted (tree_members v.now)) }
    ensures ordered { IfOk result (λ v. MembersAreOrdered (tree_members v.now)) }
    ensures shorter { OnOk result (length reader.new < length reader.old) }
    ensures refused { result ≡ Err Stop.NotJson
        → converted (λ ms. of_members ms no_members)
        (members (value depth) (length reader.old) reader.old) ≡ None }
{
    let mut found = Gathered::new(room.alloc, room.objects.take(room.alloc));
    'members: while let Some(name) = reader.next_key()? {
        let member = read(room, reader, depth)?;
        found.put(room.alloc, name, member)?;
    }
    let found = found.into_members(room.alloc)?;
    let members = room.arena.try_alloc_slice_copy(&found)?;
    room.objects.keep(found);
    Ok(members)
}
