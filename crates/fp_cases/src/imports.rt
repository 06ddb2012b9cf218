//! Cases of flagd documents.

use crate::values::SHOWN;
use fp_definition::{Definition, FlagKey};
use fp_imports::ImportFault;
use fp_transcript::Text;

/// The flags of a document, or its fault.
pub fn imported(made: Result<Vec<(FlagKey, Definition)>, ImportFault>, out: &mut Text) {
    match made {
        Ok(flags) => put_flags(&flags, out),
        Err(fault) => put_fault(&fault, out),
    }
}

fn put_flags(flags: &[(FlagKey, Definition)], out: &mut Text) {
    out.named("flags", flags.len() as u64);
    out.push("\n");
    for (key, definition) in flags.iter().take(SHOWN) {
        out.push(key.as_str());
        out.push(" ");
        out.utf8(definition.text());
        out.push("\n");
    }
    match flags.last() {
        Some((key, _)) if flags.len() > SHOWN => {
            out.push("the last ");
            out.push(key.as_str());
        }
        _ => {}
    }
}

fn put_fault(fault: &ImportFault, out: &mut Text) {
    match fault {
        ImportFault::NotDocument => out.push("not a document"),
        ImportFault::RefUnknown(name) => out.quoted("unknown", name.as_str()),
        ImportFault::RefTooDeep => out.push("too deep"),
        ImportFault::Flag(key, fault) => {
            out.push("flag ");
            out.push(key.as_str());
            out.push(": ");
            out.shown(fault);
        }
        ImportFault::BadKey(name) => out.quoted("bad key", name.as_str()),
        ImportFault::Memory => out.is_short = true,
    }
}
