//! A hello as far as it came.

ghost use Rattle.std.specs.Prelude.{◌≡◌, ◌<◌, ◌++◌, ◌∷◌, [], take, MatchOption, IfSome};
ghost use Rattle.fp_stream.specs.Hellos.{hello_bytes};
ghost use Rattle.fp_loop.specs.declared.heard.TheConstants.{HELLO};

use fp_stream::{Hello, read_hello};
use fp_streams::FailureCounted;

/// How long a hello is.
pub(crate) const HELLO: usize = 9;

/// The bytes of a hello that isn't whole yet.
#[derive(Drop)]
pub(crate) struct Heard {
    bytes: [u8; HELLO],
    count: usize,
    ghost within: { count < HELLO },
}

impl Heard {
    ghost use Rattle.fp_loop.specs.Hearing.{heard_of};

    /// Nothing yet.
    pub(crate) fn new() -> Heard
        ensures { heard_of result ≡ [] }
    {
        Heard {
            bytes: [0; HELLO],
            count: 0,
        }
    }

    /// One byte more. Gives them all where it was the last one.
    pub(crate) fn put(&mut self, byte: u8) -> Option<[u8; HELLO]>
        ensures { MatchOption result (heard_of self.new ≡ heard_of self.old ++ byte ∷ [])
            (λ all. all ≡ heard_of self.old ++ byte ∷ []) }
    {
        let mut bytes = self.bytes;
        bytes[self.count] = byte;
        if self.count + 1 == HELLO {
            return Some(bytes);
        }
        *self = Heard {
            bytes,
            count: self.count + 1,
        };
        None
    }
}

/// The hello that these bytes are, if they are one.
pub(crate) fn hello_of(bytes: &[u8; HELLO]) -> Option<Hello>
    ensures { IfSome result (λ hello. bytes.now ≡ hello_bytes hello) }
{
    read_hello(&mut FailureCounted::new(bytes.as_slice())).ok()
}
