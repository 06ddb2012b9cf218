//! What a command says, word by word.

use std::alloc::Global;

/// What is left of a command, read from its front on.
#[derive(Drop)]
pub struct Args<'a> {
    pub alloc: Global,
    pub rest: &'a str,
    /// Something isn't understood.
    pub is_bad: bool,
    /// Memory was wanting.
    pub is_short: bool,
}

/// The first word, and what stands behind it.
pub fn first_word(text: &str) -> (&str, &str) {
    match text.split_once(' ') {
        Some((word, rest)) => (word, rest.trim()),
        None => (text, ""),
    }
}

/// A number, in decimal or as a power of two, as in `2^18`.
pub fn number(word: &str) -> Option<u64> {
    match word.strip_prefix("2^") {
        Some(power) => power_of_two(power),
        None => word.parse::<u64>().ok(),
    }
}

fn power_of_two(word: &str) -> Option<u64> {
    match word.parse::<u32>() {
        Ok(power) => 1u64.checked_shl(power),
        Err(_) => None,
    }
}

impl<'a> Args<'a> {
    /// The words of a line, none of which was read yet.
    pub fn of(alloc: Global, line: &'a str) -> Args<'a> {
        Args {
            alloc,
            rest: line,
            is_bad: false,
            is_short: false,
        }
    }

    /// The next word. One that isn't there is known at the end.
    pub fn word(&mut self) -> &'a str {
        let (word, rest) = first_word(self.rest);
        self.rest = rest;
        word
    }

    /// The next word, a number. One that is none is known at the end.
    pub fn number(&mut self) -> u64 {
        let word = self.word();
        self.number_of(word)
    }

    /// The number that a word is.
    pub fn number_of(&mut self, word: &str) -> u64 {
        match number(word) {
            Some(number) => number,
            None => {
                self.is_bad = true;
                0
            }
        }
    }
}
