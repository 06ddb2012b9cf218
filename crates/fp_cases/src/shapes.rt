//! Texts that are drawn from shapes.
//!
//! A shape is one of several texts. What stands between two bars in it is put in place: `|NAME|` a
//! text of that shape, `|~NAME|` one that is then changed at a place, `|1..300|` one of these
//! numbers, and `|/|` the end of a line.

use crate::seeds::Random;
use fp_transcript::Text;
use std::alloc::{AllocError, Global};
use std::collections::BTreeMap;
use std::mem;

/// Shapes by their names, each with its texts.
pub type Shapes = BTreeMap<String, Vec<String>>;

// A draft has no more parts.
const MOST_PARTS: usize = 100_000;

// How many shapes a draft has before the first text is taken of each.
const SIZES: [u64; 8] = [4, 16, 32, 64, 64, 128, 256, 1_024];

/// One more text of a shape: the name, a space and the text.
pub fn add_shape(alloc: Global, shapes: &mut Shapes, line: &str) -> Result<(), AllocError> {
    let (name, text) = line.split_once(' ').unwrap_or((line, ""));
    let name = String::from_str(alloc, name)?;
    let texts = shapes.entry(name)?.or_insert(Vec::new(alloc));
    texts.push(String::from_str(alloc, text)?)?;
    Ok(())
}

/// A text that is being drawn.
#[derive(Drop)]
pub struct Draft<'a> {
    shapes: &'a Shapes,
    random: Random,
    // How many shapes are drawn before that.
    left: u64,
    // What isn't read yet, the next part last.
    parts: Vec<&'a str>,
    // The texts round those that are changed once they stand.
    outer: Vec<Text>,
    /// What is drawn.
    pub text: Text,
    /// A shape that there isn't was named.
    pub is_unknown: bool,
}

impl<'a> Draft<'a> {
    /// The text of a shape that a seed chooses.
    pub fn of(alloc: Global, shapes: &'a Shapes, name: &str, seed: u64) -> Draft<'a> {
        let mut random = Random::new(seed);
        let place = random.below(8) as usize;
        let mut draft = Draft {
            shapes,
            random,
            left: SIZES.get(place).copied().unwrap_or(64),
            parts: Vec::new(alloc),
            outer: Vec::new(alloc),
            text: Text::new(alloc),
            is_unknown: false,
        };
        draft.put_shape(name);
        draft.put_parts();
        draft
    }

    fn put_parts(&mut self) {
        for _ in 0..MOST_PARTS {
            match self.parts.pop() {
                Some(part) => self.put_part(part),
                None => return,
            }
        }
    }

    fn put_part(&mut self, part: &'a str) {
        match part.split_once('|') {
            Some((front, more)) => {
                self.text.push(front);
                let (hole, behind) = more.split_once('|').unwrap_or((more, ""));
                self.later(behind);
                self.fill(hole);
            }
            None => self.text.push(part),
        }
    }

    // Keeps a part in front of the others.
    fn later(&mut self, part: &'a str) {
        if self.parts.push(part).is_err() {
            self.text.is_short = true;
        }
    }

    fn fill(&mut self, hole: &'a str) {
        if hole == "/" {
            self.text.push("\n");
        } else if hole == "~" {
            self.end_change();
        } else if let Some(name) = hole.strip_prefix("~") {
            self.begin_change();
            self.later("|~|");
            self.put_shape(name);
        } else if let Some((first, last)) = hole.split_once("..") {
            self.put_number(first, last);
        } else {
            self.put_shape(hole);
        }
    }

    fn put_number(&mut self, first: &str, last: &str) {
        let first = first.parse().unwrap_or(0);
        let last = last.parse().unwrap_or(0);
        let number = self.random.between(first, last);
        self.text.number(number);
    }

    fn put_shape(&mut self, name: &str) {
        match self.chosen(name) {
            Some(text) => self.later(text),
            None => self.is_unknown = true,
        }
    }

    // One of a shape's texts, the first one where no more are to be drawn.
    fn chosen(&mut self, name: &str) -> Option<&'a str> {
        let shapes: &'a Shapes = self.shapes;
        let texts = shapes.get(name)?;
        let place = self.random.below(texts.len() as u64) as usize;
        let place = if self.left == 0 { 0 } else { place };
        self.left = self.left.saturating_sub(1);
        Some(texts.get(place)?.as_str())
    }

    fn begin_change(&mut self) {
        let inner = self.text.another();
        let outer = mem::replace(&mut self.text, inner);
        if self.outer.push(outer).is_err() {
            self.text.is_short = true;
        }
    }

    fn end_change(&mut self) {
        if let Some(outer) = self.outer.pop() {
            let inner = mem::replace(&mut self.text, outer);
            self.put_changed(inner.as_str());
            self.text.is_short = self.text.is_short || inner.is_short;
        }
    }

    // The text with one place dropped, replaced, put in or cut off.
    fn put_changed(&mut self, text: &str) {
        let place = self.random.below(text.len() as u64) as usize;
        let (Some(front), Some(back)) = (text.get(..place), text.get(place..)) else {
            return self.text.push(text);
        };
        let rest = back.get(1..).unwrap_or(back);
        self.text.push(front);
        match self.random.below(8) {
            0 | 1 => self.text.push(rest),
            2 | 3 | 4 => self.put_piece(rest),
            5 | 6 => self.put_piece(back),
            _ => {}
        }
    }

    fn put_piece(&mut self, behind: &str) {
        if let Some(piece) = self.chosen("~") {
            self.text.push(piece);
        }
        self.text.push(behind);
    }
}
