//! What a set knows of a definition that comes for one of its flags.

use crate::flag_set::FlagSet;
use fp_definition::{Definition, FlagKey};

/// The definition of that flag, if there is a set, and the flag in it: one that comes for it is
/// read beside this.
pub fn definition_under<'s>(set: Option<&'s FlagSet>, key: &FlagKey) -> Option<&'s Definition> {
    match set?.get(key) {
        Some(flag) => Some(&flag.definition),
        None => None,
    }
}
