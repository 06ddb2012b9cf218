//! Keys of flags.

ghost use Rattle.std.specs.Prelude.{◌<◌, ◌≤◌, length, string_bytes};
ghost use Rattle.fp_definition.specs.declared.key.TheConstants.{LONGEST_KEY};

use crate::faults::KeyFault;
use fp_targeting::Data;
use std::alloc::{AllocError, Global};

/// The most bytes that a key has.
pub const LONGEST_KEY: usize = 256;

/// The name of a flag: a text of 1 to `LONGEST_KEY` bytes. Keys are ordered by their bytes.
#[derive(Debug, Drop, PartialEq, Eq, PartialOrd, Ord)]
pub struct FlagKey {
    text: String,
    ghost filled: { 0 < length (string_bytes text) },
    ghost short: { length (string_bytes text) ≤ LONGEST_KEY },
}

impl FlagKey {
    ghost use Rattle.std.specs.Prelude.{◌≡◌, true, false, Err, IfOk};
    ghost use Rattle.fp_definition.specs.Key.{key_bytes, is_key};
    ghost use Rattle.fp_definition.specs.declared.faults.KeyFault.TheVariants.{BadKey};
    ghost use Rattle.fp_targeting.specs.RuleData.{TurnsTo};

    /// The key that is this text, by which a flag is named.
    pub fn new(alloc: Global, text: &str) -> Result<FlagKey, KeyFault>
        // `Ok`: the key is the text.
        ensures key { IfOk result (λ k. key_bytes k ≡ text.now) }
        // `Ok`: the text has 1 to 256 bytes.
        ensures ok { IfOk result (λ _. is_key text.now ≡ true) }
        // `BadKey`: it hasn't so many.
        ensures bad_key { result ≡ Err BadKey → is_key text.now ≡ false }
    {
        if text.is_empty() || text.len() > LONGEST_KEY {
            return Err(KeyFault::BadKey);
        }
        let text = String::from_str(alloc, text)?;
        Ok(FlagKey { text })
    }

    /// The key's text.
    pub fn as_str(&self) -> &str
        ensures { result.now ≡ key_bytes self.now }
    {
        self.text.as_str()
    }

    // Turns the data of a context to the flag of this key. Room for a key suffices.
    pub(crate) fn turn(&self, data: &mut Data)
        ensures { TurnsTo (key_bytes self.now) «data».old «data».new }
    {
        data.set_flag(self.as_str());
    }

    /// An equal key.
    pub fn try_copy(&self) -> Result<FlagKey, AllocError>
        ensures { IfOk result (λ k. key_bytes k ≡ key_bytes self.now) }
    {
        let text = self.text.clone()?;
        Ok(FlagKey { text })
    }
}
