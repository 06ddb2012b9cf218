//! What a subscriber has, and how it says so.

ghost use Rattle.std.specs.Prelude.{◌≡◌, ◌≤◌, ◌↔◌, IsTrue, ◌<◌, ◌++◌, ◌∷◌, ℕ, List, take};
ghost use Rattle.std.specs.Prelude.{Some, IfOk, IfErr, OnOk};
ghost use Rattle.std.specs.Int.{w64, to_be_bytes};
ghost use Rattle.std.specs.Io.KnownBytes.{Appends, Consumes, IsAtEnd};
ghost use Rattle.fp_streams.specs.Failures.{CountsFailures};
ghost use Rattle.fp_streams.specs.declared.counted.StreamFault.TheVariants.{Device};
ghost use Rattle.fp_stream.specs.declared.hello.Hello.{Hello};
ghost use Rattle.fp_stream.specs.declared.hello.TheConstants.{HELLO};
ghost use Rattle.fp_stream.specs.Heads.{IsNewer};
ghost use Rattle.fp_stream.specs.Hellos.{hello_bytes, CountsHello, IsHello, Hears};
ghost use Rattle.fp_stream.specs.Hellos.{IsSaid, IsSpelled};

use fp_streams::{FailureCounted, StreamFault};
use std::io::{Read, Write};
use thiserror::Error;

/// What a subscriber says that it has.
#[derive(Debug, Drop, Clone, Copy, PartialEq, Eq)]
pub enum Hello {
    /// No snapshot yet.
    Nothing,
    /// The snapshot of this revision.
    Has(u64),
}

impl Hello {
    /// Whether a revision is news to who says this: exactly where it is greater than the one that
    /// it names, if it names one.
    pub fn is_behind(self, revision: u64) -> bool
        ensures { IsTrue result ↔ IsNewer self revision }
    {
        match self {
            Hello::Nothing => true,
            Hello::Has(before) => before < revision,
        }
    }
}

/// Why a hello wasn't read.
#[derive(Debug, Drop, Clone, Copy, Error)]
pub enum HelloFault {
    /// The stream ended within it.
    #[error("a hello that is cut")]
    Cut,
    /// Its bytes say nothing that a hello may.
    #[error("no hello")]
    BadHello,
    /// The reader failed.
    #[error("device fault")]
    Device,
}

/// How long a hello is.
const HELLO: usize = 9;

// Its first byte, for who has nothing and for who has a revision.
const NOTHING: u8 = 0;

const HAS: u8 = 1;

/// Says hello, in nine bytes. At an error some of it may have been said.
pub fn write_hello<W: Write>(w: &mut FailureCounted<W>, hello: Hello) -> Result<(), StreamFault>
    // `Ok`: exactly its nine bytes stand behind what the writer held.
    ensures hello { OnOk result (Appends (W.contents w.old.inner) (W.contents w.new.inner)
        (hello_bytes hello)) }
    // Its one fault is `Device`.
    ensures fault { IfErr result (λ f. f ≡ Device) }
    // `Device` exactly where the writer's count of failures rose.
    ensures counted { CountsFailures w.old.failures w.new.failures result }
{
    let (first, revision) = match hello {
        Hello::Nothing => (NOTHING, 0),
        Hello::Has(revision) => (HAS, revision),
    };
    w.send(&bytes_of(first, revision))
}

// A first byte, and a number of eight.
fn bytes_of(first: u8, revision: u64) -> [u8; HELLO]
    ensures { result ≡ first ∷ to_be_bytes w64 revision }
{
    let r = revision.to_be_bytes();
    [first, r[0], r[1], r[2], r[3], r[4], r[5], r[6], r[7]]
}

/// Reads a hello, and not a byte behind it.
pub fn read_hello<R: Read>(r: &mut FailureCounted<R>) -> Result<Hello, HelloFault>
    // `Ok`: its nine bytes were taken, and no more; `Cut`: fewer were left, and all were taken;
    // `BadHello`: nine were taken that no hello has.
    ensures heard { Hears (R.remaining r.old.inner) (R.remaining r.new.inner) result }
    // `Device` exactly where the reader's count of failures rose.
    ensures counted { CountsHello r.old.failures r.new.failures result }
    // Where a hello stands it is answered, unless the reader fails.
    ensures only { (hello : Hello) (rest : List ℕ) → IsHello hello →
        R.remaining r.old.inner ≡ Some (hello_bytes hello ++ rest) → IsSaid hello result }
{
    let mut bytes = [0; HELLO];
    match fill(r, &mut bytes) {
        Err(_) => Err(HelloFault::Device),
        Ok(len) if len < HELLO => Err(HelloFault::Cut),
        Ok(_) => match hello_in(&bytes) {
            Some(hello) => Ok(hello),
            None => Err(HelloFault::BadHello),
        },
    }
}

// Reads as many bytes as there are, up to all of a hello's. One by one, so that
// none behind them is taken.
fn fill<R: Read>(r: &mut FailureCounted<R>, bytes: &mut [u8; HELLO]) -> Result<usize, StreamFault>
    ensures within { IfOk result (λ len. len ≤ HELLO) }
    ensures read { IfOk result (λ len.
        Consumes (R.remaining r.old.inner) (R.remaining r.new.inner) (take len bytes.new)) }
    ensures end { IfOk result (λ len. len < HELLO → IsAtEnd (R.remaining r.new.inner)) }
    ensures fault { IfErr result (λ f. f ≡ Device) }
    ensures counted { CountsFailures r.old.failures r.new.failures result }
{
    let mut len = 0;
    let mut one = [0u8; 1];
    'bytes: while len < HELLO {
        if r.read(&mut one)? == 0 {
            return Ok(len);
        }
        bytes[len] = one[0];
        len += 1;
    }
    Ok(len)
}

// The hello that the bytes spell.
fn hello_in(bytes: &[u8; HELLO]) -> Option<Hello>
    ensures { IsSpelled bytes.now result }
{
    let [first, a, b, c, d, e, f, g, h] = *bytes;
    let revision = u64::from_be_bytes([a, b, c, d, e, f, g, h]);
    match first {
        NOTHING if revision == 0 => Some(Hello::Nothing),
        HAS => Some(Hello::Has(revision)),
        _ => None,
    }
}
