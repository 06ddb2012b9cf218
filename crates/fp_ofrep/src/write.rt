//! Bodies, put straight as JSON behind what is there.

ghost use Rattle.std.specs.Prelude.{◌≡◌, ◌++◌, ◌∷◌, [], true, OnOk, Option, codes, option_map};
ghost use Rattle.std.specs.Option.{option_copied};
ghost use Rattle.json.specs.Print.{quoted};
ghost use Rattle.serde_json.specs.Data.{Data, Members as JsonMembers};
ghost use Rattle.serde_json.specs.Written.{compact_text, members_text};
ghost use Rattle.fp_definition.specs.Resolving.{Said, spelled_by, spelling};
ghost use Rattle.fp_ofrep.specs.Bodies.{failure as failure_data, reason_text, said_members};
ghost use Rattle.fp_ofrep.specs.Bodies.{success, with_key, with_metadata};

use crate::failure::Failure;
use fp_base::put_quoted;
use fp_definition::{Reason, Resolved};
use std::alloc::AllocError;

/// Puts a failure.
pub(crate) fn put_failure(
    out: &mut Vec<u8>,
    failure: Failure,
    key: Option<&str>,
) -> Result<(), AllocError>
    ensures { OnOk result (out.new.items ≡ out.old.items
        ++ compact_text (failure_data failure (option_copied key.entry))) }
{
    put_text(out, b"{\"errorCode\":", failure.code())?;
    put_text(out, b",\"errorDetails\":", failure.details())?;
    end_failure(out, key)?;
    Ok(())
}

// Puts the key, if there is one, and the end of the object.
fn end_failure(out: &mut Vec<u8>, key: Option<&str>) -> Result<(), AllocError>
    ensures { OnOk result (out.new.items
        ≡ out.old.items ++ members_text true (with_key (option_copied key.entry))) }
{
    match key {
        Some(key) => {
            put_text(out, b",\"key\":", key)?;
            out.push(b'}')?;
            Ok(())
        }
        None => {
            out.push(b'}')?;
            Ok(())
        }
    }
}

// Puts these bytes, and a text in quotes.
fn put_text(out: &mut Vec<u8>, before: &[u8], text: &str) -> Result<(), AllocError>
    ensures { OnOk result (out.new.items ≡ out.old.items ++ (before.now ++ quoted text.now)) }
{
    out.extend_from_slice(before)?;
    put_quoted(out, text)
}

/// Puts what a flag resolved to, with the text of its metadata.
pub(crate) fn put_success(
    out: &mut Vec<u8>,
    key: &str,
    metadata: Option<&[u8]>,
    said: &Resolved<'_>,
) -> Result<(), AllocError>
    ensures { OnOk result ((m : Option Data) (s : Said)
        → option_map (λ t. t.now) metadata.entry ≡ option_map compact_text m
        → spelled_by said.now ≡ spelling s
        → out.new.items ≡ out.old.items ++ compact_text (success key.now m s)) }
{
    put_text(out, b"{\"key\":", key)?;
    put_metadata(out, metadata)?;
    end_success(out, said)?;
    Ok(())
}

// Puts the member `metadata`, if there is one. Whatever members come after it, they are then what is
// left to put.
fn put_metadata(out: &mut Vec<u8>, metadata: Option<&[u8]>) -> Result<(), AllocError>
    ensures { OnOk result ((m : Option Data) (ms : JsonMembers)
        → option_map (λ t. t.now) metadata.entry ≡ option_map compact_text m
        → out.new.items ++ members_text true ms
        ≡ out.old.items ++ members_text true (with_metadata m ms)) }
{
    match metadata {
        Some(text) => {
            out.extend_from_slice(b",\"metadata\":")?;
            out.extend_from_slice(text)?;
            Ok(())
        }
        None => Ok(()),
    }
}

// Puts reason, value and variant, and the end of the object.
fn end_success(out: &mut Vec<u8>, said: &Resolved<'_>) -> Result<(), AllocError>
    ensures { OnOk result ((s : Said) → spelled_by said.now ≡ spelling s
        → out.new.items ≡ out.old.items ++ members_text true (said_members s)) }
{
    out.extend_from_slice(before_value(said.reason))?;
    out.extend_from_slice(said.value)?;
    put_text(out, b",\"variant\":", said.variant)?;
    out.push(b'}')?;
    Ok(())
}

// The member `reason`, and the name of the one behind it.
fn before_value(reason: Reason) -> &'static [u8]
    ensures { result.now ≡ 44 ∷ (quoted (codes "reason") ++ 58 ∷ (quoted (reason_text reason)
        ++ 44 ∷ (quoted (codes "value") ++ 58 ∷ []))) }
{
    match reason {
        Reason::Static => b",\"reason\":\"STATIC\",\"value\":",
        Reason::Default => b",\"reason\":\"DEFAULT\",\"value\":",
        Reason::TargetingMatch => b",\"reason\":\"TARGETING_MATCH\",\"value\":",
    }
}
