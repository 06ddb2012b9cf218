//! MurmurHash3, x86, 32 bits, with the seed 0.

ghost use Rattle.std.specs.Prelude.{◌≡◌, ◌∷◌, [], ◌++◌};
ghost use Rattle.fp_operators.specs.Murmur.{word, scrambled, mixed, absorbed, finished, murmur};

/// The hash of a text by MurmurHash3 (x86, 32 bits, seed 0). It stands in two parts, which are not
/// joined for it.
pub fn hash_of(front: &str, back: &str) -> u32
    ensures { result ≡ murmur (front.now ++ back.now) }
{
    let (front, back) = (front.as_bytes(), back.as_bytes());
    let length = ((front.len() + back.len()) % (1 << 32)) as u32;
    finish(absorb_both(0, front, back) ^ length)
}

/// The state after what is left of the front, and then the back.
fn absorb_both(state: u32, front: &[u8], back: &[u8]) -> u32
    ensures { result ≡ absorbed state (front.now ++ back.now) }
{
    let mut state = state;
    let mut left = front;
    'blocks: while let [a, b, c, d, more @ ..] = left {
        state = mix(state, *a, *b, *c, *d);
        left = more;
    }
    match left {
        [] => absorb(state, back),
        [a] => absorb_after_one(state, *a, back),
        [a, b] => absorb_after_two(state, *a, *b, back),
        [a, b, c, ..] => absorb_after_three(state, *a, *b, *c, back),
    }
}

fn absorb_after_one(state: u32, a: u8, back: &[u8]) -> u32
    ensures { result ≡ absorbed state (a ∷ back.now) }
{
    match back {
        [] => state ^ scramble(a, 0, 0, 0),
        [b] => state ^ scramble(a, *b, 0, 0),
        [b, c] => state ^ scramble(a, *b, *c, 0),
        [b, c, d, more @ ..] => absorb(mix(state, a, *b, *c, *d), more),
    }
}

fn absorb_after_two(state: u32, a: u8, b: u8, back: &[u8]) -> u32
    ensures { result ≡ absorbed state (a ∷ b ∷ back.now) }
{
    match back {
        [] => state ^ scramble(a, b, 0, 0),
        [c] => state ^ scramble(a, b, *c, 0),
        [c, d, more @ ..] => absorb(mix(state, a, b, *c, *d), more),
    }
}

fn absorb_after_three(state: u32, a: u8, b: u8, c: u8, back: &[u8]) -> u32
    ensures { result ≡ absorbed state (a ∷ b ∷ c ∷ back.now) }
{
    match back {
        [] => state ^ scramble(a, b, c, 0),
        [d, more @ ..] => absorb(mix(state, a, b, c, *d), more),
    }
}

/// The state after the blocks of four bytes, and after what is left behind them.
fn absorb(state: u32, bytes: &[u8]) -> u32
    ensures { result ≡ absorbed state bytes.now }
{
    let mut state = state;
    let mut left = bytes;
    'blocks: while let [a, b, c, d, more @ ..] = left {
        state = mix(state, *a, *b, *c, *d);
        left = more;
    }
    match left {
        [] => state,
        [a] => state ^ scramble(*a, 0, 0, 0),
        [a, b] => state ^ scramble(*a, *b, 0, 0),
        [a, b, c, ..] => state ^ scramble(*a, *b, *c, 0),
    }
}

/// Takes a block into the state.
fn mix(state: u32, a: u8, b: u8, c: u8, d: u8) -> u32
    ensures { result ≡ mixed state (word a b c d) }
{
    let state = (state ^ scramble(a, b, c, d)).rotate_left(13);
    state.wrapping_mul(5).wrapping_add(0xe654_6b64)
}

fn scramble(a: u8, b: u8, c: u8, d: u8) -> u32
    ensures { result ≡ scrambled (word a b c d) }
{
    let block = u32::from_le_bytes([a, b, c, d]);
    block
        .wrapping_mul(0xcc9e_2d51)
        .rotate_left(15)
        .wrapping_mul(0x1b87_3593)
}

fn finish(state: u32) -> u32
    ensures { result ≡ finished state }
{
    let state = (state ^ (state >> 16)).wrapping_mul(0x85eb_ca6b);
    let state = (state ^ (state >> 13)).wrapping_mul(0xc2b2_ae35);
    state ^ (state >> 16)
}
