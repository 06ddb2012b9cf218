//! A text that grows.

use std::alloc::{AllocError, Global};
use std::fmt;

/// A text that grows. Where memory was wanting it says so at its end.
#[derive(Drop)]
pub struct Text {
    pub alloc: Global,
    pub text: String,
    pub is_short: bool,
}

impl Text {
    /// An empty text.
    pub fn new(alloc: Global) -> Text {
        Text {
            alloc,
            text: String::new(alloc),
            is_short: false,
        }
    }

    /// The whole text, unless memory was wanting.
    pub fn whole(self) -> Result<String, AllocError> {
        if self.is_short {
            Err(AllocError)
        } else {
            Ok(self.text)
        }
    }

    /// An empty text beside it.
    pub fn another(&self) -> Text {
        Text::new(self.alloc)
    }

    /// Empties it, and forgets that memory was wanting.
    pub fn clear(&mut self) {
        self.text.clear();
        self.is_short = false;
    }

    /// What stands in it.
    pub fn as_str(&self) -> &str {
        self.text.as_str()
    }

    /// Whether nothing stands in it.
    pub fn is_empty(&self) -> bool {
        self.text.is_empty()
    }

    /// Puts a text behind what is there.
    pub fn push(&mut self, text: &str) {
        if self.text.push_str(text).is_err() {
            self.is_short = true;
        }
    }

    /// Puts a number in decimal behind what is there.
    pub fn number(&mut self, number: u64) {
        self.shown(&number);
    }

    /// Puts what is shown as a text behind what is there.
    pub fn shown<T: fmt::Display>(&mut self, value: &T) {
        if write!(self.text, "{value}").is_err() {
            self.is_short = true;
        }
    }

    /// What was asked for. Where there was no memory for it, this text says so.
    pub fn got<T, E: Drop>(&mut self, asked: Result<T, E>) -> Option<T> {
        match asked {
            Ok(value) => Some(value),
            Err(_) => {
                self.is_short = true;
                None
            }
        }
    }

    /// Puts `yes` or `no` behind what is there.
    pub fn yes(&mut self, is_so: bool) {
        self.push(if is_so { "yes" } else { "no" });
    }

    /// Puts a name and a number behind what is there.
    pub fn named(&mut self, name: &str, number: u64) {
        self.push(name);
        self.push(" ");
        self.number(number);
    }

    /// Puts a name, and a text in quotes, behind what is there.
    pub fn quoted(&mut self, name: &str, text: &str) {
        self.push(name);
        self.push(" \"");
        self.push(text);
        self.push("\"");
    }

    /// Puts a comma behind what is there.
    pub fn part(&mut self) {
        if !self.text.is_empty() {
            self.push(", ");
        }
    }

    /// Ends a line behind what is there.
    pub fn end_line(&mut self) {
        if !self.text.is_empty() && !self.text.ends_with('\n') {
            self.push("\n");
        }
    }

    /// Appends a copy of a word to words: whether there was memory.
    pub fn push_copy(&self, word: &str, words: &mut Vec<String>) -> bool {
        match String::from_str(self.alloc, word) {
            Ok(word) => words.push(word).is_ok(),
            Err(_) => false,
        }
    }

    /// Puts another text behind what is there.
    pub fn put(&mut self, text: &Text) {
        self.push(text.as_str());
        self.is_short = self.is_short || text.is_short;
    }

    /// Puts the lines of another text behind what is there, as one.
    pub fn flat(&mut self, text: &Text) {
        self.replaced(text.as_str().trim_end(), "\n", " ");
        self.is_short = self.is_short || text.is_short;
    }

    /// Puts the text that bytes are behind what is there.
    pub fn bytes(&mut self, bytes: &[u8]) {
        match String::from_utf8_lossy(self.alloc, bytes) {
            Ok(text) => self.push(text.as_str()),
            Err(_) => self.is_short = true,
        }
    }

    /// Puts the text that bytes are behind what is there, or that they are none.
    pub fn utf8(&mut self, bytes: &[u8]) {
        match str::from_utf8(bytes) {
            Ok(text) => self.push(text),
            Err(_) => self.push("no UTF-8"),
        }
    }

    /// Puts bytes behind what is there, as an operand may write them.
    pub fn written(&mut self, bytes: &[u8]) {
        let mut is_inside = false;
        for byte in bytes {
            let is_text = *byte >= b' ' && *byte <= b'~' && *byte != b'`';
            if is_inside == is_text {
                self.push(if is_text { "`" } else { "`0x" });
                is_inside = !is_text;
            }
            if is_text {
                self.shown(&char::from(*byte));
            } else {
                self.shown(&format_args!("{byte:02x}"));
            }
        }
        if is_inside {
            self.push("`");
        }
    }

    /// Puts bytes in hex digits behind what is there.
    pub fn digits(&mut self, bytes: &[u8]) {
        match hex::encode(self.alloc, bytes) {
            Ok(text) => self.push(text.as_str()),
            Err(_) => self.is_short = true,
        }
    }

    /// Puts a text behind what is there, with another one in the place of a part of it.
    pub fn replaced(&mut self, text: &str, part: &str, by: &str) {
        match text.replace(self.alloc, part, by) {
            Ok(text) => self.push(text.as_str()),
            Err(_) => self.is_short = true,
        }
    }
}
