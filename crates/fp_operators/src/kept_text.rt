//! A text of data.

ghost use Rattle.std.specs.Prelude.{◌≡◌, ◌≤◌, IfOk, length, string_bytes};

use arrayvec::ArrayString;
use std::alloc::{AllocError, Global};
use std::marker::Model;

/// A text of so many bytes at most lies in the datum itself: most names and paths in rules are as
/// short, and ask for no memory of their own then.
pub const SHORT_TEXT: usize = 16;

#[derive(Drop)]
enum Kept {
    Short(ArrayString<SHORT_TEXT>),
    Long(String),
}

/// A text of data. Clauses see its bytes, and how many it has room for.
#[derive(Drop)]
pub struct Text {
    kept: Kept,
}

impl Model for Text {
    ghost use Rattle.fp_operators.specs.KeptText.{TextState, state_of};

    ghost Value = { TextState };

    ghost view = { λ t. state_of t.kept };
}

impl Text {
    /// The same text.
    pub fn from_str(alloc: Global, text: &str) -> Result<Text, AllocError>
        ensures { IfOk result (λ t. t.bytes ≡ text.now) }
    {
        let kept = match ArrayString::from(text) {
            Ok(short) => Kept::Short(short),
            Err(_) => Kept::Long(String::from_str(alloc, text)?),
        };
        Ok(Text { kept })
    }

    /// The same text, with room for so many bytes.
    pub fn with_room(alloc: Global, text: &str, room: usize) -> Result<Text, AllocError>
        ensures text { IfOk result (λ t. t.bytes ≡ text.now) }
        ensures room { IfOk result (λ t. room ≤ t.room) }
    {
        let mut long = String::with_capacity(alloc, room)?;
        long.push_str(text)?;
        Ok(Text::from(long))
    }

    /// The text, lent.
    pub fn as_str(&self) -> &str
        ensures { result.now ≡ self.now.bytes }
    {
        match &self.kept {
            Kept::Short(text) => text.as_str(),
            Kept::Long(text) => text.as_str(),
        }
    }

    /// An equal text.
    pub fn try_copy(&self) -> Result<Text, AllocError>
        ensures { IfOk result (λ t. t.bytes ≡ self.now.bytes) }
    {
        let kept = match &self.kept {
            Kept::Short(text) => Kept::Short(*text),
            Kept::Long(text) => Kept::Long(text.clone()?),
        };
        Ok(Text { kept })
    }

    /// Writes another text in its place. It asks for no memory, and can't fail.
    pub fn rewrite(&mut self, text: &str)
        // There is room for it.
        requires { length text.now ≤ self.old.room }
        ensures text { self.new.bytes ≡ text.now }
        // There is no less room than before.
        ensures room { self.old.room ≤ self.new.room }
    {
        match &mut self.kept {
            Kept::Short(kept) => {
                kept.clear();
                kept.push_str(text);
            }
            Kept::Long(kept) => {
                kept.clear();
                kept.push_str(text).unwrap();
            }
        }
    }
}

impl From<String> for Text {
    ghost use Rattle.fp_operators.specs.KeptText.{IsOfString};

    ghost from_gives = { IsOfString };

    fn from(text: String) -> Text {
        Text {
            kept: Kept::Long(text),
        }
    }
}
