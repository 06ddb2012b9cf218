//! Bytes as they come in.

ghost use Rattle.std.specs.Prelude.{◌≡◌, ◌<◌, ◌≤◌, [], length, drop, false, IfOk, IfErr, OnOk};
ghost use Rattle.std.specs.Io.KnownBytes.{Consumes, IsAtEnd};
ghost use Rattle.fp_streams.specs.Failures.{CountsFailures};
ghost use Rattle.fp_streams.specs.declared.counted.StreamFault.TheVariants.{Device};

use fp_streams::{FailureCounted, StreamFault};
use std::io::Read;
use std::marker::Model;

const CHUNK: usize = 65_536;

/// What is left of the bytes of one read.
#[derive(Drop)]
pub struct Chunk {
    bytes: [u8; CHUNK],
    at: usize,
    end: usize,
}

impl Model for Chunk {
    ghost use Rattle.std.specs.Prelude.{◌≤◌, ◌-◌, ℕ, List, length, take, drop};

    ghost Value = { List ℕ };

    ghost view = { λ c. take (c.end - c.at) (drop c.at c.bytes) };

    ghost invariant = { λ c. (c.at ≤ c.end) × (c.end ≤ length c.bytes) };
}

impl Chunk {
    /// Nothing came in yet.
    pub fn new() -> Chunk
        ensures { result ≡ [] }
    {
        Chunk {
            bytes: [0; CHUNK],
            at: 0,
            end: 0,
        }
    }

    /// The bytes that are left.
    pub fn as_slice(&self) -> &[u8]
        ensures { result.now ≡ self.now }
    {
        &self.bytes[self.at..self.end]
    }

    /// Passes over some bytes.
    pub fn skip(&mut self, count: usize)
        requires { count ≤ length self.old }
        ensures { self.new ≡ drop count self.old }
    {
        self.at += count;
    }

    /// Reads once, over what was left. `Ok(false)` is the end.
    pub fn fill<R: Read>(&mut self, r: &mut FailureCounted<R>) -> Result<bool, StreamFault>
        ensures bytes { OnOk result
            (Consumes (R.remaining r.old.inner) (R.remaining r.new.inner) self.new) }
        ensures end { IfOk result (λ some. some ≡ false
            → (self.new ≡ []) × IsAtEnd (R.remaining r.new.inner)) }
        ensures fault { IfErr result (λ f. f ≡ Device) }
        ensures counted { CountsFailures r.old.failures r.new.failures result }
        ensures fewer { OnOk result (r.new.reads_left < r.old.reads_left) }
    {
        let count = r.read(&mut self.bytes)?;
        self.at = 0;
        self.end = count;
        Ok(count > 0)
    }
}
