//! Trials of inputs that are drawn from shapes. None of them may lack memory.

use crate::session::Session;
use crate::shapes::{Draft, Shapes};
use fp_transcript::{Args, Text};

// A line of a draft is shown in lines of so many characters.
const SHOWN_AT_ONCE: usize = 90;

/// What is tried: a shape, how many of its drafts, the first one's seed, and the words with which
/// answers begin that take an input.
#[derive(Clone, Copy)]
struct Asked<'a> {
    shape: &'a str,
    count: u64,
    seed: u64,
    words: &'a str,
}

// What was seen of the drafts, and the first that is told of.
#[derive(Drop)]
struct Seen {
    taken: u64,
    told: u64,
    first: Text,
}

/// Tries drafts, of which the line tells the shape, the number, the first seed and the words.
pub fn tried(shapes: &Shapes, line: &str, out: &mut Text) {
    let mut args = Args::of(out.alloc, line);
    let asked = Asked {
        shape: args.word(),
        count: args.number(),
        seed: args.number(),
        words: args.rest,
    };
    let mut seen = Seen {
        taken: 0,
        told: 0,
        first: out.another(),
    };
    for place in 0..asked.count {
        seen.look_at(shapes, asked, asked.seed.wrapping_add(place), out);
    }
    seen.tell(asked.count, out);
}

impl Seen {
    fn look_at(&mut self, shapes: &Shapes, asked: Asked<'_>, seed: u64, out: &mut Text) {
        let draft = Draft::of(out.alloc, shapes, asked.shape, seed);
        let mut answer = out.another();
        let wrong = if draft.is_unknown {
            Some("names no shape")
        } else {
            answered(draft.text.as_str(), &mut answer, out)
        };
        if is_one_of(answer.as_str(), asked.words) {
            self.taken = self.taken.saturating_add(1);
        }
        if let Some(wrong) = wrong {
            self.told = self.told.saturating_add(1);
            if self.told == 1 {
                put_draft(seed, wrong, draft.text.as_str(), &mut self.first);
            }
        }
        out.is_short = out.is_short || draft.text.is_short || self.first.is_short;
    }

    fn tell(&self, count: u64, out: &mut Text) {
        out.number(count);
        out.push(" inputs, ");
        put_share(self.taken, count, out);
        out.push(" taken, ");
        put_share(count.saturating_sub(self.taken), count, out);
        out.push(" refused, ");
        if self.told == 0 {
            return out.push("none lacks memory");
        }
        out.number(self.told);
        out.push(" told of, the first by ");
        out.put(&self.first);
    }
}

// A number, where it is less than an eighth.
fn put_share(number: u64, count: u64, out: &mut Text) {
    if number < count.div_ceil(8) {
        out.number(number);
    } else {
        out.push("many");
    }
}

// Whether an answer begins with one of the words.
fn is_one_of(answer: &str, words: &str) -> bool {
    words.split(' ').any(|word| answer.starts_with(word))
}

// Answers the commands of a draft, and leaves the last answer: what is wrong with them.
fn answered(draft: &str, answer: &mut Text, out: &mut Text) -> Option<&'static str> {
    let mut session = out.got(Session::new(out.alloc))?;
    let mut wrong = None;
    for line in draft.lines() {
        answer.clear();
        session.command(line, answer);
        wrong = wrong.or(wrong_in(answer));
    }
    wrong
}

fn wrong_in(answer: &Text) -> Option<&'static str> {
    if answer.is_short {
        Some("lacks memory")
    } else if answer.as_str().contains(" BUT ITS TREE: ") {
        Some("is read in two ways")
    } else if answer.as_str() == "no such command" {
        Some("has no command")
    } else {
        None
    }
}

fn put_draft(seed: u64, wrong: &str, draft: &str, out: &mut Text) {
    out.named("seed", seed);
    out.push(", which ");
    out.push(wrong);
    out.push(":");
    for line in draft.lines() {
        let mut place = 0usize;
        for letter in line.chars() {
            if place % SHOWN_AT_ONCE == 0 {
                out.push("\n");
            }
            out.shown(&letter);
            place = place.wrapping_add(1);
        }
    }
}
