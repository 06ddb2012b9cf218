//! Where edits come from.

ghost use Rattle.std.specs.Prelude.{◌≡◌, ◌<◌, [], ℕ, List, IfOk, IfErr, MatchOption};
ghost use Rattle.std.specs.Prelude.{false, true};
ghost use Rattle.fp_session.specs.Asks.{Ask};
ghost use Rattle.fp_session.specs.Sources.{AsksNext};
ghost use Rattle.fp_streams.specs.Failures.{CountsFailures};
ghost use Rattle.fp_streams.specs.declared.counted.StreamFault.TheVariants.{Device};

use fp_edit::{Edit, LineFault};
use fp_streams::StreamFault;
use std::alloc::{AllocError, Global};

/// A source of edits, which gets them from a stream.
pub trait EditSource<S> {
    // From here on it asks these, one after another, and nothing else.
    ghost asks: { Self → S → List Ask → Type 0 };

    // How much it has at hand.
    ghost at_hand: { Self → ℕ };

    // How often its stream may yet be asked for more, and how often that failed.
    ghost left: { S → ℕ };

    ghost failures: { S → ℕ };

    /// The next edit at hand, or what stood in its place; `None` where nothing is at hand.
    fn next(&mut self, alloc: Global) -> Result<Option<Result<Edit, LineFault>>, AllocError>
        // `Ok`: the first of what it asks, and then it asks the rest; `None`: it asks what it
        // asked.
        ensures next { IfOk result (AsksNext asks self.old self.new) }
        // `Ok`: less is at hand, and at `None` nothing is.
        ensures fewer { IfOk result (λ next. MatchOption next (at_hand self.new ≡ 0)
            (λ _. at_hand self.new < at_hand self.old)) };

    /// Gets more, where nothing is at hand. `Ok(false)` is the end.
    fn refill(&mut self, stream: &mut S) -> Result<bool, StreamFault>
        requires { at_hand self.old ≡ 0 }
        // `Ok`: it asks what it asked, and at `false` that is nothing.
        ensures more { IfOk result (λ more. (all : List Ask) → asks self.old stream.old all
            → asks self.new stream.new all × (more ≡ false → all ≡ [])) }
        // `Ok(true)`: its stream may be asked less often than before, so that a loop ends.
        ensures fewer { IfOk result (λ more. more ≡ true → left stream.new < left stream.old) }
        // Its one fault is `Device`.
        ensures fault { IfErr result (λ f. f ≡ Device) }
        // `Device` exactly where its stream failed.
        ensures counted { CountsFailures (failures stream.old) (failures stream.new) result };
}
