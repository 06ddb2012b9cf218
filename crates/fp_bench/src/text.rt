//! Texts of JSON, spelled by patterns.

use crate::random::Random;
use itoa::Buffer;
use std::alloc::Global;

/// How a text is spelled.
#[derive(Clone, Copy, PartialEq, Eq)]
pub enum Spelling {
    /// As a disk has it: no white space, and characters as they are.
    Canonical,
    /// On one line, with a space behind each comma and colon, and with escapes.
    OneLine,
    /// With line ends, as in a file that people edit.
    Lines,
}

// Words as canonical JSON spells them.
const PLAIN: [&[u8]; 12] = [
    b"rollout",
    b"of the",
    b"checkout",
    b"\xc3\xa9tape",
    b"for",
    b"gr\xc3\xb6\xc3\x9fere Kunden",
    b"banner\\n",
    b"the \\\"new\\\" page",
    b"search",
    b"\xe6\x97\xa5\xe6\x9c\xac\xe8\xaa\x9e",
    b"v2",
    b"\xf0\x9f\x9a\x80 launch",
];

// Words that have another spelling there.
const ESCAPED: [&[u8]; 4] = [
    b"\\u00e9tape",
    b"caf\\u00E9",
    b"a\\/b",
    b"\\ud83d\\ude80 launch",
];

const COUNTRIES: [&[u8]; 8] = [b"AT", b"BR", b"DE", b"ES", b"FR", b"JP", b"NL", b"US"];

const PLANS: [&[u8]; 4] = [b"enterprise", b"free", b"pro", b"team"];

const CITIES: [&[u8]; 4] = [b"Berlin", b"K\xc3\xb6ln", b"Lyon", b"S\xc3\xa3o Paulo"];

const ROLES: [&[u8]; 6] = [b"admin", b"beta", b"buyer", b"editor", b"owner", b"viewer"];

const TOPICS: [&[u8]; 8] = [
    b"banner",
    b"dark-mode",
    b"eager-loading",
    b"express",
    b"limits",
    b"new-flow",
    b"retry",
    b"second-page",
];

// What flags are about, in ascending order.
const AREAS: [&[u8]; 8] = [
    b"billing",
    b"catalog",
    b"checkout",
    b"customers",
    b"inventory",
    b"mobile-app",
    b"payments",
    b"search-service",
];

// How many flags an area has.
const OF_AREA: u64 = 512;

// Lines are broken down to this depth.
const DEEPEST: usize = 6;

/// A text that grows, beside what its patterns stand for. Where memory was wanting it says so at its
/// end.
#[derive(Drop)]
pub struct Text {
    pub random: Random,
    /// The number of the flag that it speaks of.
    pub number: u64,
    /// How deep brackets stand in it.
    pub depth: usize,
    /// Where a number stands that is to be another one each time.
    pub hole: usize,
    /// What sets its keys apart from those of other inputs.
    pub mark: u64,
    /// How many tenants a list names.
    pub tenants: u64,
    /// The names of a flag's variants.
    pub names: [&'static [u8]; 2],
    pub spelling: Spelling,
    bytes: Vec<u8>,
    is_quoted: bool,
    is_short: bool,
}

impl Text {
    /// An empty one, which is spelled as a disk has it.
    pub fn new(alloc: Global, random: Random, mark: u64) -> Text {
        Text {
            random,
            number: 0,
            depth: 0,
            hole: 0,
            mark,
            tenants: 0,
            names: [b"", b""],
            spelling: Spelling::Canonical,
            bytes: Vec::new(alloc),
            is_quoted: false,
            is_short: false,
        }
    }

    /// What stands in it.
    pub fn bytes(&self) -> &[u8] {
        self.bytes.as_slice()
    }

    /// What stands in it, to keep.
    pub fn into_bytes(self) -> Vec<u8> {
        self.bytes
    }

    /// Whether memory was wanting.
    pub fn is_short(&self) -> bool {
        self.is_short
    }

    /// Whether it is spelled as a disk has it.
    pub fn is_canonical(&self) -> bool {
        self.spelling == Spelling::Canonical
    }

    /// Empties it.
    pub fn clear(&mut self) {
        self.bytes.clear();
    }

    /// Bytes as they are.
    pub fn push(&mut self, bytes: &[u8]) {
        if self.bytes.extend_from_slice(bytes).is_err() {
            self.is_short = true;
        }
    }

    /// Zeros up to this length.
    pub fn fill(&mut self, length: u64) {
        if self.bytes.resize(length as usize, 0).is_err() {
            self.is_short = true;
        }
    }

    /// The last so many bytes of a number, the highest first.
    pub fn field(&mut self, number: u64, count: usize) {
        let bytes = number.to_be_bytes();
        self.push(bytes.get(8usize.saturating_sub(count)..).unwrap_or(b""));
    }

    /// The last four digits of a number.
    pub fn four(&mut self, number: u64) {
        let places = [number / 1_000, number / 100, number / 10, number];
        self.push(&places.map(|place| b'0' + (place % 10) as u8));
    }

    /// A number in decimal.
    pub fn decimal(&mut self, number: u64) {
        self.push(Buffer::new().format(number).as_bytes());
    }

    /// So many words.
    pub fn words(&mut self, count: u64) {
        for n in 0..count {
            if n > 0 {
                self.push(b" ");
            }
            let word = if !self.is_canonical() && self.random.below(4) == 0 {
                self.random.pick(&ESCAPED)
            } else {
                self.random.pick(&PLAIN)
            };
            self.push(word);
        }
    }

    /// What a pattern says, in which `%` and a letter stand for something. Its texts have no escapes.
    pub fn say(&mut self, pattern: &[u8]) {
        let mut is_letter = false;
        for byte in pattern {
            if is_letter {
                self.meant(*byte);
                is_letter = false;
            } else if *byte == b'%' {
                is_letter = true;
            } else if *byte == b'"' {
                self.is_quoted = !self.is_quoted;
                self.byte(b'"');
            } else if self.is_quoted || self.is_canonical() {
                self.byte(*byte);
            } else {
                self.token(*byte);
            }
        }
    }

    // What a letter stands for.
    fn meant(&mut self, letter: u8) {
        match letter {
            b'1' => self.push(self.names[0]),
            b'2' => self.push(self.names[1]),
            b'd' => self.four(self.number),
            b'k' => self.key(),
            b'n' => self.random_below(40),
            b'N' => self.random_below(10_000),
            b'l' => self.long(),
            b't' => self.tenant(),
            b'T' => self.list(),
            b'u' => {
                self.hole = self.bytes.len();
                self.push(b"00000000");
            }
            b'w' => {
                let count = self.random.from(2, 7);
                self.words(count);
            }
            _ => self.picked(letter),
        }
    }

    fn picked(&mut self, letter: u8) {
        let word = match letter {
            b'c' => self.random.pick(&COUNTRIES),
            b'p' => self.random.pick(&PLANS),
            b'r' => self.random.pick(&ROLES),
            b'y' => self.random.pick(&CITIES),
            _ => self.random.pick(&TOPICS),
        };
        self.push(word);
    }

    fn random_below(&mut self, end: u64) {
        let number = self.random.below(end);
        self.decimal(number);
    }

    // A number of 19 digits.
    fn long(&mut self) {
        let number = self
            .random
            .from(1_000_000_000_000_000_000, 8_000_000_000_000_000_000);
        self.decimal(number);
    }

    /// The key of its flag, which ascends with its number.
    pub fn key(&mut self) {
        self.push(AREAS[(self.number / OF_AREA % 8) as usize]);
        self.push(b".flag-");
        self.four(self.number);
        self.push(b"-");
        self.push(TOPICS[(self.number.wrapping_add(self.mark) % 8) as usize]);
        self.push(b"-");
        self.four(self.mark);
    }

    fn tenant(&mut self) {
        self.push(b"tenant-");
        let number = self.random.below(1_000);
        self.four(number);
    }

    // The items of a list of tenants.
    fn list(&mut self) {
        for n in 0..self.tenants {
            if n > 0 {
                self.push(b",");
            }
            if n > 0 && !self.is_canonical() {
                self.push(b" ");
            }
            self.push(b"\"");
            self.tenant();
            self.push(b"\"");
        }
    }

    fn token(&mut self, byte: u8) {
        match byte {
            b'{' | b'[' => {
                self.byte(byte);
                self.depth = self.depth.saturating_add(1);
                let _ = self.end_line(0);
            }
            b'}' | b']' => {
                let _ = self.end_line(1);
                self.depth = self.depth.saturating_sub(1);
                self.byte(byte);
            }
            b',' => {
                self.byte(byte);
                if !self.end_line(0) {
                    self.byte(b' ');
                }
            }
            b':' => {
                self.byte(byte);
                self.byte(b' ');
            }
            _ => self.byte(byte),
        }
    }

    fn byte(&mut self, byte: u8) {
        if self.bytes.push(byte).is_err() {
            self.is_short = true;
        }
    }

    // Ends the line, where lines are broken; what follows may stand less deep. Whether it did.
    fn end_line(&mut self, less: usize) -> bool {
        if self.spelling != Spelling::Lines || self.depth > DEEPEST {
            return false;
        }
        self.byte(b'\n');
        for _ in less..self.depth {
            self.push(b"  ");
        }
        true
    }
}
