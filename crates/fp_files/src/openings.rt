//! Which paths were to be opened and what for, and how often that failed.

ghost use Rattle.std.specs.Prelude.{◌≡◌, ◌+◌, [], ◌∷◌, ◌++◌};

use fp_disk::{Bytes, DiskFault};
use fp_fronts::{Count, Growing, Lists};
use std::marker::Model;

/// What a file is opened for.
#[derive(Clone, Copy, Debug)]
pub enum Purpose {
    /// To be read and written, with its lock, and made where there is none.
    Making,
    /// To be read and written, with its lock.
    Writing,
    /// To be read alone, whoever has the lock.
    Reading,
}

struct OfRequest;

impl<'a> Lists<(&'a str, Purpose), (Bytes, Purpose)> for OfRequest {
    ghost items = { λ request. (request.0.now, request.1) ∷ [] };
}

/// Which paths were to be opened so far and what for, in order, and how often that failed. It is
/// there in proofs alone and takes no bytes.
#[derive(Drop)]
pub struct OpeningLog {
    paths: Growing<(Bytes, Purpose)>,
    failures: Count,
}

impl Model for OpeningLog {
    ghost use Rattle.fp_files.specs.Openings.{Openings};

    ghost Value = { Openings };

    ghost view = { λ l. record { asked = l.paths.log; faults = l.failures } };
}

impl OpeningLog {
    /// Begins the list of what was asked for: no path yet, and no failure.
    pub fn new() -> OpeningLog
        ensures { result ≡ record { asked = []; faults = 0 } }
    {
        OpeningLog {
            paths: Growing::new().0,
            failures: Count::new(),
        }
    }

    /// Notes one path more, with its purpose.
    pub fn ask(&mut self, path: &str, purpose: Purpose)
        ensures { self.new ≡ record {
          asked = self.old.asked ++ (path.now, purpose) ∷ [];
          faults = self.old.faults;
        } }
    {
        self.paths
            .lengthen::<(&str, Purpose), OfRequest>(&(path, purpose));
    }

    /// Counts one failure more.
    pub fn fault(&mut self) -> DiskFault
        ensures { self.new ≡ record { asked = self.old.asked; faults = self.old.faults + 1 } }
    {
        self.failures.increment();
        DiskFault::Device
    }
}
