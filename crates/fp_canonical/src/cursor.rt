//! A place in a text, from which on it is read.

ghost use Rattle.std.specs.Prelude.{◌≡◌, ◌<◌, ◌≤◌, ◌∷◌, ◌++◌, ℕ, List, true, false, length};

use std::marker::Model;

/// What is left of a text that is read as canonical JSON, and room for the strings in it that have
/// escapes. Clauses see what is left.
#[derive(Drop)]
pub struct Cursor<'a> {
    pub(crate) rest: &'a str,
    pub(crate) room: &'a mut [u8],
}

impl<'a> Model for Cursor<'a> {
    ghost use Rattle.std.specs.Prelude.{◌≤◌, List, ℕ, length};

    ghost Value = { List ℕ };

    ghost view = { λ a. a.rest.now };

    ghost invariant = { λ a. length a.rest.now ≤ length a.room.now };
}

impl<'a> Cursor<'a> {
    /// A cursor at the beginning of a text.
    pub fn new(text: &'a str, room: &'a mut [u8]) -> Cursor<'a>
        // There is as much room as the text has bytes.
        requires { length text.now ≤ length room.now }
        ensures { result ≡ text.now }
    {
        Cursor { rest: text, room }
    }

    /// How many bytes are left.
    pub fn left(&self) -> usize
        ensures { result ≡ length self.now }
    {
        self.rest.len()
    }

    /// Goes past the byte, if it comes next.
    #[inline(always)]
    pub fn take(&mut self, byte: u8) -> bool
        // It is ASCII.
        requires { byte < 128 }
        // `true`: it came next.
        ensures taken { result ≡ true → self.old ≡ byte ∷ self.new }
        // It is taken wherever it comes next.
        ensures next { (rest : List ℕ) → self.old ≡ byte ∷ rest → result ≡ true }
        // `false`: nothing is changed.
        ensures kept { result ≡ false → self.new ≡ self.old }
    {
        let text = self.rest;
        let bytes = text.as_bytes();
        if bytes.is_empty() || bytes[0] != byte {
            return false;
        }
        self.rest = &text[1..];
        true
    }

    /// Goes past a text, if it comes next with ASCII behind it.
    pub fn take_text(&mut self, text: &[u8]) -> bool
        // `true`: it came next.
        ensures taken { result ≡ true → self.old ≡ text.now ++ self.new }
        // `false`: nothing is changed.
        ensures kept { result ≡ false → self.new ≡ self.old }
    {
        let whole = self.rest;
        let Some(behind) = whole.as_bytes().strip_prefix(text) else {
            return false;
        };
        if behind.is_empty() || behind[0] >= 0x80 {
            return false;
        }
        self.rest = &whole[text.len()..];
        true
    }

    // Goes past a word, if it comes next.
    #[inline(always)]
    pub(crate) fn take_word(&mut self, word: &str) -> bool
        ensures taken { result ≡ true → self.old ≡ word.now ++ self.new }
        ensures next { (rest : List ℕ) → self.old ≡ word.now ++ rest → result ≡ true }
    {
        match self.rest.strip_prefix(word) {
            Some(rest) => {
                self.rest = rest;
                true
            }
            None => false,
        }
    }

    // The next byte, or 0 at the end.
    #[inline(always)]
    pub(crate) fn peek(&self) -> u8
        ensures { (byte : ℕ) (rest : List ℕ) → self.now ≡ byte ∷ rest → result ≡ byte }
    {
        match self.rest.as_bytes().first() {
            Some(byte) => *byte,
            None => 0,
        }
    }
}
