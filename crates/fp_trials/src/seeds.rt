//! Numbers that are drawn, and events and crashes by them.

use crate::sweep::FILLS;
use crate::text::edit_of;
use crate::whole::posted;
use fp_disk::Fill;
use fp_edit::Edit;
use fp_transcript::{Args, Text};
use fp_world::Event;
use std::alloc::{AllocError, Global};

/// Where they begin.
pub const FIRST_SEED: u64 = 0x9e37_79b9_7f4a_7c15;

/// The number behind this one.
pub fn next_seed(seed: u64) -> u64 {
    let mut seed = seed;
    seed ^= seed << 13;
    seed ^= seed >> 7;
    seed ^= seed << 17;
    seed
}

// Keys are `k` and a digit below this.
const KEYS: u64 = 8;

// Lengths of definitions: small ones, and some of which few fill an image.
const LENGTHS: [u64; 8] = [42, 64, 65, 300, 4_000, 9_001, 16_291, 16_384];

// The longest definition in a set, of which a line has room for four.
const LONGEST_IN_SET: u64 = 8_000;

/// Draws events, and what becomes of their disk.
#[derive(Drop)]
pub struct Draws {
    alloc: Global,
    seed: u64,
    // Which event is the next one in a batch's course.
    place: u64,
    // Whether a third of the edits are sets of changes.
    with_sets: bool,
    /// A revision near those that are there.
    pub near: u64,
}

impl Draws {
    /// From the first seed on, with sets of changes or without.
    pub fn new(alloc: Global, with_sets: bool) -> Draws {
        Draws {
            alloc,
            seed: FIRST_SEED,
            place: 0,
            with_sets,
            near: 1,
        }
    }

    /// A number below this one.
    pub fn below(&mut self, end: u64) -> u64 {
        self.seed = next_seed(self.seed);
        self.seed / 0x1_0000 % end.max(1)
    }

    // A revision near those that are there.
    fn revision(&mut self) -> u64 {
        let before = self.below(6);
        let behind = self.below(10);
        self.near
            .saturating_sub(before)
            .saturating_add(behind)
            .max(1)
    }

    /// So many events.
    pub fn events(&mut self, count: u64) -> Result<Vec<Event>, AllocError> {
        let mut events = Vec::new(self.alloc);
        for _ in 0..count {
            let Some(event) = self.event() else {
                return Err(AllocError);
            };
            events.push(event)?;
        }
        Ok(events)
    }

    // None where memory is wanting.
    fn event(&mut self) -> Option<Event> {
        match self.below(16) {
            0 | 1 | 2 => self.edit().map(Event::Submit),
            3 | 4 | 5 => Some(Event::Compact),
            6 => Some(Event::Publish),
            7 => Some(Event::Hand(self.below(4) as usize)),
            8 => self.evaluation(),
            9 => Some(Event::Ack(self.revision())),
            _ => Some(self.next_of_batch()),
        }
    }

    fn next_of_batch(&mut self) -> Event {
        let place = self.place;
        self.place = place.saturating_add(1) % 6;
        match place {
            0 => Event::Draw,
            1 => Event::Stage,
            2 => Event::SyncBody,
            3 => Event::OpenGate,
            4 => Event::SyncGate,
            _ => Event::Settle,
        }
    }

    fn edit(&mut self) -> Option<Edit> {
        let mut line = Text::new(self.alloc);
        if self.with_sets && self.below(3) == 0 {
            self.put_set(&mut line);
        } else {
            let is_delete = self.below(4) == 0;
            let key = self.below(KEYS);
            self.put_change(is_delete, key, u64::MAX, &mut line);
        }
        edit_of(&mut Args::of(self.alloc, line.as_str()))
    }

    // Two to four changes, of keys in a row.
    fn put_set(&mut self, line: &mut Text) {
        line.push("set ");
        let first = self.below(KEYS);
        for n in 0..self.below(3).saturating_add(2) {
            if n > 0 {
                line.push(", ");
            }
            let is_delete = self.below(4) == 0;
            let key = first.saturating_add(n) % KEYS;
            self.put_change(is_delete, key, LONGEST_IN_SET, line);
        }
    }

    // What is done to a key, with a definition that isn't longer than this.
    fn put_change(&mut self, is_delete: bool, key: u64, longest: u64, line: &mut Text) {
        line.push(if is_delete { "delete k" } else { "put k" });
        line.number(key);
        if !is_delete {
            line.push(" ");
            line.number(self.length().min(longest));
        }
        self.expected(line);
    }

    fn length(&mut self) -> u64 {
        let place = self.below(8) as usize;
        LENGTHS.get(place).copied().unwrap_or(64)
    }

    fn expected(&mut self, line: &mut Text) {
        match self.below(8) {
            0 => line.push(" if absent"),
            1 => {
                line.push(" if ");
                line.number(self.revision());
            }
            _ => {}
        }
    }

    fn evaluation(&mut self) -> Option<Event> {
        let reader = self.below(3) as usize;
        let mut target = Text::new(self.alloc);
        target.push("/ofrep/v1/evaluate/flags/k");
        target.number(self.below(KEYS));
        let mut args = Args::of(self.alloc, "");
        posted(&mut args, reader, target.as_str(), Vec::new(self.alloc))
    }

    /// What becomes of bytes.
    pub fn fill(&mut self) -> Fill {
        let place = self.below(16) as usize;
        match FILLS.get(place) {
            Some(fill) => *fill,
            None => Fill::Seed(self.seed),
        }
    }

    /// How long the disk is behind a crash.
    pub fn left_length(&mut self) -> u64 {
        match self.below(4) {
            0 => 0,
            1 => u64::MAX,
            _ => self.below(1 << 18).saturating_add(1 << 18),
        }
    }
}
