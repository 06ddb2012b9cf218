//! Flags that are imported.

ghost use Rattle.std.specs.Prelude.{◌≡◌, List, Ok, length, map};
ghost use Rattle.fp_edit.specs.Flags.{State};
ghost use Rattle.fp_session.specs.Asks.{asked_by_flags, flag_bytes};
ghost use Rattle.fp_session.specs.RunPromise.{RunPromise};
ghost use Rattle.fp_session.specs.Streams.{Blames};
ghost use Rattle.fp_session.specs.declared.replies.TheConstants.{MOST_WAITING};

use crate::batching::Batching;
use crate::run::answer_all;
use crate::source::EditSource;
use crate::{ApplyFault, EditStore};
use fp_definition::{Definition, FlagKey};
use fp_edit::{Edit, Expect, LineFault};
use fp_streams::{FailureCounted, StreamFault};
use std::alloc::{AllocError, Global};
use std::io::Write;
use std::marker::Model;
use std::vec::IntoIter;

/// Puts of flags, which are all at hand.
#[derive(Drop)]
pub struct FlagPuts {
    flags: IntoIter<(FlagKey, Definition)>,
}

impl Model for FlagPuts {
    ghost use Rattle.std.specs.Prelude.{◌≡◌, ℕ, List, length};
    ghost use Rattle.std.specs.Vec.Iter.{into_iter_items, into_iter_len};
    ghost use Rattle.fp_definition.specs.declared.key.FlagKey.{FlagKey};

    ghost Value = { List (FlagKey × List ℕ) };

    ghost view = { λ p. into_iter_items p.flags };

    ghost invariant = { λ p. length (into_iter_items p.flags) ≡ into_iter_len p.flags };
}

impl FlagPuts {
    fn new(flags: Vec<(FlagKey, Definition)>) -> FlagPuts
        ensures { result ≡ flags.items }
    {
        FlagPuts {
            flags: flags.into_iter(),
        }
    }
}

impl EditSource<()> for FlagPuts {
    ghost asks = { λ p s all. all ≡ asked_by_flags (map flag_bytes p) };

    ghost at_hand = { λ p. length p };

    ghost left = { λ s. 0 };

    ghost failures = { λ s. 0 };

    fn next(&mut self, alloc: Global) -> Result<Option<Result<Edit, LineFault>>, AllocError> {
        let Some((key, flag)) = self.flags.next() else {
            return Ok(None);
        };
        let expect = Expect::Any;
        Ok(Some(Ok(Edit::Put { key, flag, expect })))
    }

    fn refill(&mut self, stream: &mut ()) -> Result<bool, StreamFault> {
        Ok(false)
    }
}

/// Puts each flag, whatever stands at its key, answers each put by a reply line, and shows the
/// flags behind the last reply. As many puts as make one batch, 1,024 at most, are kept at once,
/// and then answered.
///
/// A put that is refused is answered, and the next ones go on. `Ok(false)` says that a reply told
/// of wanting memory. Where puts aren't kept their replies are `store-failed`, the last ones. A
/// writer that fails is `Device`, unless the store failed or memory was wanting just before.
pub fn import_flags<W: Write, E: EditStore>(
    alloc: Global,
    w: &mut FailureCounted<W>,
    edits: E,
    flags: Vec<(FlagKey, Definition)>,
) -> (E, Result<bool, ApplyFault>)
    // Nothing waits to be kept yet.
    requires fresh { (s : State) → E.may_stand edits s → s ≡ E.state edits }
    // The promise of a run over a put for each flag, of which 1,024 at most are answered at once.
    ensures runs { RunPromise E.EditStore
        (λ Holds. Holds (asked_by_flags (map flag_bytes flags.items))) MOST_WAITING
        edits result.0 (W.contents w.old.inner) (W.contents w.new.inner)
        w.old.failures w.new.failures result.1 }
    // `Device` comes only where the writer failed, and `Ok` only where it didn't.
    ensures device { Blames w.old.failures w.new.failures result.1 }
{
    let mut puts = FlagPuts::new(flags);
    let mut edits = edits;
    let outcome = answer_all(alloc, &mut puts, &mut (), w, &mut edits, Batching::Full);
    (edits, outcome)
}
