//! Data turn to another flag.

ghost use Rattle.std.specs.Prelude.{◌≡◌, ◌≤◌, ℕ, List, length, codes};
ghost use Rattle.fp_operators.specs.Data.{Members, object, put, text};
ghost use Rattle.fp_operators.specs.View.{view, members_view};
ghost use Rattle.fp_targeting.specs.Room.{FlagHasRoom, HasRoom, IsUnder, KeyHasRoom};
ghost use Rattle.fp_targeting.specs.RuleData.{TurnsTo};
ghost use Rattle.fp_targeting.specs.declared.turn.TheConstants.{ROOM_FOR_A_KEY};

use fp_operators::Datum;
use std::collections::BTreeMap;

/// Data have room for a flag's key of so many bytes, whatever flag they were made for.
pub const ROOM_FOR_A_KEY: usize = 256;

// Turns the data of a context to the flag of this key.
pub(crate) fn turn_to(datum: &mut Datum, flag_key: &str)
    requires short { length flag_key.now ≤ ROOM_FOR_A_KEY }
    requires room { HasRoom datum.old }
    ensures turned { TurnsTo flag_key.now (view datum.old) (view datum.new) }
    ensures room { HasRoom datum.new }
{
    if let Datum::Object(members) = datum {
        set_flag_key(members, flag_key);
    }
}

// Sets the key in the member of the flag.
fn set_flag_key(members: &mut BTreeMap<String, Datum>, flag_key: &str)
    requires short { length flag_key.now ≤ ROOM_FOR_A_KEY }
    requires room { IsUnder (codes "$flagd") FlagHasRoom members.old.entries }
    ensures turned { (k : List ℕ) (of_flag ms : Members) → members_view members.old.entries
        ≡ put (codes "$flagd") (object (put (codes "flagKey") (text k) of_flag)) ms
        → members_view members.new.entries
        ≡ put (codes "$flagd") (object (put (codes "flagKey") (text flag_key.now) of_flag)) ms }
    ensures room { IsUnder (codes "$flagd") FlagHasRoom members.new.entries }
{
    if let Some(flag) = members.get_mut("$flagd") {
        name_flag(flag, flag_key);
    }
}

// Sets the key in the data of a flag.
fn name_flag(flag: &mut Datum, flag_key: &str)
    requires short { length flag_key.now ≤ ROOM_FOR_A_KEY }
    requires room { FlagHasRoom flag.old }
    ensures named { (k : List ℕ) (others : Members)
        → view flag.old ≡ object (put (codes "flagKey") (text k) others)
        → view flag.new ≡ object (put (codes "flagKey") (text flag_key.now) others) }
    ensures room { FlagHasRoom flag.new }
{
    if let Datum::Object(members) = flag {
        set_key(members, flag_key);
    }
}

fn set_key(members: &mut BTreeMap<String, Datum>, flag_key: &str)
    requires short { length flag_key.now ≤ ROOM_FOR_A_KEY }
    requires room { IsUnder (codes "flagKey") KeyHasRoom members.old.entries }
    ensures named { (k : List ℕ) (others : Members)
        → members_view members.old.entries ≡ put (codes "flagKey") (text k) others
        → members_view members.new.entries ≡ put (codes "flagKey") (text flag_key.now) others }
    ensures room { IsUnder (codes "flagKey") KeyHasRoom members.new.entries }
{
    if let Some(key) = members.get_mut("flagKey") {
        set_text(key, flag_key);
    }
}

fn set_text(key: &mut Datum, flag_key: &str)
    requires short { length flag_key.now ≤ ROOM_FOR_A_KEY }
    requires room { KeyHasRoom key.old }
    ensures text { (k : List ℕ) → view key.old ≡ text k → view key.new ≡ text flag_key.now }
    ensures room { KeyHasRoom key.new }
{
    if let Datum::Text(written) = key {
        written.rewrite(flag_key);
    }
}
