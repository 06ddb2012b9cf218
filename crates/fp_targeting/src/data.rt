//! The data that a rule is evaluated on.

ghost use Rattle.std.specs.Prelude.{◌≡◌, ◌<◌, ◌≤◌, ◌^◌, true, IfOk, IsSome, length};
ghost use Rattle.serde_json.specs.Find.{as_object};
ghost use Rattle.serde_json.specs.View.{view as json_view};
ghost use Rattle.fp_base.specs.Ordered.{IsOrdered};
ghost use Rattle.fp_base.specs.TreeView.{tree_view};
ghost use Rattle.fp_base.specs.Whole.{is_whole};
ghost use Rattle.fp_operators.specs.Data.{text};
ghost use Rattle.fp_operators.specs.View.{view};
ghost use Rattle.fp_targeting.specs.Room.{FlagHasRoom, KeyHasRoom, Stands};
ghost use Rattle.fp_targeting.specs.RuleData.{TurnsTo, rule_data, flag_data, with_member};
ghost use Rattle.fp_targeting.specs.declared.turn.TheConstants.{ROOM_FOR_A_KEY};

use crate::turn::{ROOM_FOR_A_KEY, turn_to};
use bumpalo::Bump;
use fp_base::Tree;
use fp_operators::{Datum, Text};
use serde_json::Value;
use std::alloc::{AllocError, Global};
use std::collections::BTreeMap;
use std::marker::Model;

/// What a rule is evaluated on: the context, and which flag is evaluated when.
#[derive(Drop)]
pub struct Data {
    datum: Datum,
}

impl Model for Data {
    ghost use Rattle.fp_operators.specs.Data as values;
    ghost use Rattle.fp_operators.specs.View.{view as datum_view};
    ghost use Rattle.fp_machine.specs.Codes.{coded_data};
    ghost use Rattle.fp_targeting.specs.Room.{HasRoom};

    ghost Value = { values.Data };

    ghost coded = { coded_data };

    ghost view = { λ d. datum_view d.datum };

    ghost invariant = { λ d. HasRoom d.datum };
}

impl Data {
    /// The context with the member `$flagd`, an object of the flag's key (`flagKey`) and of the
    /// moment in seconds since 1970 (`timestamp`). A member of that name in the context is
    /// replaced.
    pub fn new(alloc: Global, context: &Value, flag_key: &str, now: u64) -> Result<Data, AllocError>
        // The context is an object.
        requires object { IsSome (as_object (json_view context.now)) }
        // Each number in it is whole.
        requires whole { is_whole (json_view context.now) ≡ true }
        // The moment is below 2^63.
        requires moment { now < 2 ^ 63 }
        ensures { IfOk result (λ d. d ≡ rule_data (json_view context.now) flag_key.now now) }
    {
        let arena = Bump::new(alloc);
        let tree = Tree::of_value(&arena, context)?;
        Data::of_tree(alloc, &tree, flag_key, now)
    }

    /// The same of a context that is a tree.
    #[tactic(auto, using(crate::proofs::Rooms::has_room))]
    pub fn of_tree(
        alloc: Global,
        context: &Tree<'_>,
        flag_key: &str,
        now: u64,
    ) -> Result<Data, AllocError>
        // The context is an object.
        requires object { IsSome (as_object (tree_view context.now)) }
        // Each number in it is whole.
        requires whole { is_whole (tree_view context.now) ≡ true }
        // The tree is ordered.
        requires ordered { IsOrdered (tree_view context.now) }
        // The moment is below 2^63.
        requires moment { now < 2 ^ 63 }
        ensures { IfOk result (λ d. d ≡ rule_data (tree_view context.now) flag_key.now now) }
    {
        let flag = flag_datum(alloc, flag_key, now)?;
        let datum = with(alloc, Datum::from_tree(alloc, context)?, "$flagd", flag)?;
        Ok(Data { datum })
    }

    /// Turns to the flag of this key: data made for whatever flag are then those made for this one,
    /// in the same context at the same moment. It asks for no memory, and can't fail.
    pub fn set_flag(&mut self, flag_key: &str)
        // The key has at most 256 bytes.
        requires { length flag_key.now ≤ ROOM_FOR_A_KEY }
        ensures { TurnsTo flag_key.now self.old self.new }
    {
        turn_to(&mut self.datum, flag_key);
    }

    /// The data as a datum, lent.
    pub fn datum(&self) -> &Datum
        ensures { view result.now ≡ self.now }
    {
        &self.datum
    }
}

/// An object of the flag's key and of the moment.
#[tactic(auto, using(crate::proofs::Rooms::flag_has_room))]
fn flag_datum(alloc: Global, flag_key: &str, now: u64) -> Result<Datum, AllocError>
    requires { now < 2 ^ 63 }
    ensures value { IfOk result (λ d. view d ≡ flag_data flag_key.now now) }
    ensures room { IfOk result FlagHasRoom }
{
    let key = key_datum(alloc, flag_key)?;
    let moment = Datum::Whole(now as i64);
    let flag = with(
        alloc,
        Datum::Object(BTreeMap::new(alloc)),
        "timestamp",
        moment,
    )?;
    with(alloc, flag, "flagKey", key)
}

/// The text of a flag's key, with room for any other key.
fn key_datum(alloc: Global, flag_key: &str) -> Result<Datum, AllocError>
    ensures text { IfOk result (λ d. view d ≡ text flag_key.now) }
    ensures room { IfOk result KeyHasRoom }
{
    Ok(Datum::Text(Text::with_room(alloc, flag_key, ROOM_FOR_A_KEY)?))
}

/// An object with a member set. Data of other kinds have no members.
fn with(alloc: Global, datum: Datum, name: &str, member: Datum) -> Result<Datum, AllocError>
    ensures value { IfOk result (λ d. view d ≡ with_member name.now (view member) (view datum)) }
    ensures member { IfOk result (Stands name.now member) }
{
    match datum {
        Datum::Object(mut members) => {
            drop(members.insert(String::from_str(alloc, name)?, member)?);
            Ok(Datum::Object(members))
        }
        other => Ok(other),
    }
}
