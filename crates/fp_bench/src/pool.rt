//! Pieces of inputs that are made once, and used with another number in them each time.

use crate::awkward::flag;
use crate::flags::{Rules, definition, referring};
use crate::job::Job;
use crate::text::{Spelling, Text};
use std::alloc::Global;

/// What pieces are.
#[derive(Clone, Copy)]
pub enum Sample {
    /// Definitions with such rules.
    Definition(Rules),
    /// The same in a flagd document, where one of three refers to an evaluator.
    Imported,
    /// Definitions near their limits, and some past them.
    Awkward,
    /// Bodies of requests.
    Context,
}

// What a client may say of itself.
const MEMBERS: [&[u8]; 10] = [
    br#","plan":"%p""#,
    br#","address":{"city":"%y","street":"%w","zip":"%N"}"#,
    br#","tenant":"%t""#,
    br#","orders":%n"#,
    br#","roles":["%r","%r","%r"]"#,
    br#","app":{"name":"storefront","version":"1.%n.2"}"#,
    br#","country":"%c""#,
    br#","isEmployee":false"#,
    br#","basket":[{"article":%N,"count":%n},{"article":%N,"count":%n}]"#,
    br#","note":"%w""#,
];

// A context of three to twelve members.
fn context(text: &mut Text) {
    text.say(br#"{"context":{"targetingKey":"user-%u","email":"%r%N@%p.example.com""#);
    let first = text.random.below(10);
    for n in 0..=text.random.below(10) {
        text.say(MEMBERS[(first.wrapping_add(n) % 10) as usize]);
    }
    text.say(b"}}");
}

impl Sample {
    // How deep it stands in what it is put into.
    fn depth(self) -> usize {
        match self {
            Sample::Imported => 2,
            _ => 0,
        }
    }

    fn say(self, text: &mut Text) {
        match self {
            Sample::Definition(rules) => definition(text, rules),
            Sample::Imported if text.random.below(3) == 0 => referring(text),
            Sample::Imported => definition(text, Rules::Usual),
            Sample::Awkward => flag(text),
            Sample::Context => context(text),
        }
    }
}

// What stands in front of the number, and behind it.
#[derive(Drop)]
struct Piece {
    front: Vec<u8>,
    back: Vec<u8>,
}

/// Pieces, and the number that the next one gets.
#[derive(Drop)]
pub struct Pool {
    pieces: Vec<Piece>,
    next: u64,
}

impl Pool {
    /// Some hundreds of them, spelled in one of two ways in turn.
    pub fn new(job: &mut Job, sample: Sample, spellings: [Spelling; 2]) -> Pool {
        let mut pool = Pool {
            pieces: Vec::new(job.alloc),
            next: 0,
        };
        let mut text = Text::new(job.alloc, job.random(u64::MAX), 0);
        for n in 0..job.count(512) {
            text.clear();
            text.spelling = spellings[(n % 2) as usize];
            text.depth = sample.depth();
            sample.say(&mut text);
            if !pool.add(job.alloc, text.bytes(), text.hole) {
                job.digest.fail();
            }
        }
        pool
    }

    /// Definitions with such rules, as a disk has them.
    pub fn on_disk(job: &mut Job, rules: Rules) -> Pool {
        Pool::new(job, Sample::Definition(rules), [Spelling::Canonical; 2])
    }

    // One more piece, with a number of eight digits there: whether there was memory for it.
    fn add(&mut self, alloc: Global, bytes: &[u8], hole: usize) -> bool {
        let front = bytes.get(..hole).unwrap_or(b"");
        let back = bytes.get(hole.saturating_add(8)..).unwrap_or(b"");
        let (Ok(front), Ok(back)) = (Vec::from_slice(alloc, front), Vec::from_slice(alloc, back))
        else {
            return false;
        };
        self.pieces.push(Piece { front, back }).is_ok()
    }

    /// Puts one of them, with a number that no other one has.
    pub fn put(&mut self, out: &mut Text) {
        let place = out.random.below(self.pieces.len() as u64);
        self.next = self.next.wrapping_add(1);
        if let Some(piece) = self.pieces.get(place as usize) {
            out.push(&piece.front);
            out.four(self.next / 10_000);
            out.four(self.next);
            out.push(&piece.back);
        }
    }
}
