//! Why a text is no key, and why a value is no definition.

ghost use Rattle.std.specs.Prelude.{◌≡◌};

use std::alloc::{AllocError, AllocFailed};
use std::fmt;

/// Why there is no key.
#[derive(Debug, Drop, Clone, Copy)]
pub enum KeyFault {
    /// The text is empty, or longer than a key may be.
    BadKey,
    /// Memory ran out.
    Memory,
}

impl From<AllocError> for KeyFault {
    ghost use Rattle.fp_definition.specs.declared.faults.KeyFault.TheVariants.{Memory};

    ghost from_gives = { λ _ e. e ≡ Memory };

    fn from(_: AllocError) -> KeyFault {
        KeyFault::Memory
    }
}

/// Why a value is no definition, in the order in which the faults are looked for.
#[derive(Debug, Drop)]
pub enum DefFault {
    /// Lists and objects stand in one another too deep.
    TooDeep,
    /// A number has a fraction, an exponent or too many bits.
    WholeNumbersOnly,
    /// The canonical text is too long.
    TooLarge,
    /// The value is no object.
    NotObject,
    /// `state` is there and is neither of its two texts.
    BadState,
    /// `variants` isn't an object of some values of one kind.
    BadVariants,
    /// `defaultVariant` isn't the name of a variant.
    BadDefault,
    /// `metadata` is there and isn't an object of few texts, numbers and booleans.
    BadMetadata,
    /// `targeting` uses an operator of this name, which there isn't.
    UnsupportedOperator(String),
    /// `targeting` is no rule.
    BadRule,
    /// Memory ran out.
    Memory,
}

impl From<AllocError> for DefFault {
    ghost use Rattle.fp_definition.specs.declared.faults.DefFault.TheVariants.{Memory};

    ghost from_gives = { λ _ e. e ≡ Memory };

    fn from(_: AllocError) -> DefFault {
        DefFault::Memory
    }
}

impl<T: Drop> From<AllocFailed<T>> for DefFault {
    ghost use Rattle.fp_definition.specs.declared.faults.DefFault.TheVariants.{Memory};

    ghost from_gives = { λ _ e. e ≡ Memory };

    fn from(_: AllocFailed<T>) -> DefFault {
        DefFault::Memory
    }
}

impl DefFault {
    ghost use Rattle.fp_definition.specs.Faults.{text_of};

    /// The word by which replies name the fault. `Display` prints it too.
    pub fn as_str(&self) -> &'static str
        ensures { result.now ≡ text_of self.now }
    {
        match self {
            DefFault::TooDeep => "too-deep",
            DefFault::WholeNumbersOnly => "whole-numbers-only",
            DefFault::TooLarge => "too-large",
            DefFault::NotObject => "not-object",
            DefFault::BadState => "bad-state",
            DefFault::BadVariants => "bad-variants",
            DefFault::BadDefault => "bad-default",
            DefFault::BadMetadata => "bad-metadata",
            DefFault::UnsupportedOperator(_) => "unsupported-operator",
            DefFault::BadRule => "bad-rule",
            DefFault::Memory => "out-of-memory",
        }
    }
}

impl fmt::Display for DefFault {
    ghost use Rattle.std.specs.Prelude.{Some};
    ghost use Rattle.fp_definition.specs.Faults.{text_of};

    ghost output = { λ e. Some (text_of e) };

    fn fmt<W: fmt::Write>(&self, f: &mut fmt::Formatter<W>) -> fmt::Result {
        f.write_str(self.as_str())
    }
}

impl std::error::Error for DefFault {}
