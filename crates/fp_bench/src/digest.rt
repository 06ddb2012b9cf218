//! One number for all that was answered.

/// A number that all answers so far were mixed into, and whether a call gave none.
#[derive(Clone, Copy)]
pub struct Digest {
    state: u64,
    is_broken: bool,
}

impl Digest {
    /// Nothing was answered yet.
    pub fn new() -> Digest {
        Digest {
            state: 0,
            is_broken: false,
        }
    }

    /// A number that was answered.
    pub fn number(&mut self, number: u64) {
        self.state = mixed(self.state, number);
    }

    /// Bytes that were answered. Four words at a time are mixed, each into a number of its own.
    pub fn bytes(&mut self, bytes: &[u8]) {
        let (words, rest) = bytes.as_chunks::<8>();
        let (groups, left) = words.as_chunks::<4>();
        let (mut first, mut second, mut third, mut fourth) = (self.state, 1, 2, 3);
        for [a, b, c, d] in groups {
            first = mixed(first, u64::from_le_bytes(*a));
            second = mixed(second, u64::from_le_bytes(*b));
            third = mixed(third, u64::from_le_bytes(*c));
            fourth = mixed(fourth, u64::from_le_bytes(*d));
        }
        self.state = mixed(mixed(first, second), mixed(third, fourth));
        for word in left {
            self.number(u64::from_le_bytes(*word));
        }
        for byte in rest {
            self.number(u64::from(*byte));
        }
        self.number(bytes.len() as u64);
    }

    /// A call failed that always can be made.
    pub fn fail(&mut self) {
        self.is_broken = true;
    }

    /// The number, unless a call failed.
    pub fn whole(self) -> Option<u64> {
        if self.is_broken {
            None
        } else {
            Some(self.state)
        }
    }
}

fn mixed(state: u64, number: u64) -> u64 {
    let product = (state ^ number).wrapping_mul(0x9e37_79b9_7f4a_7c15);
    product ^ (product >> 29)
}
