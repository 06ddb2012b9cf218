//! Which calls of a disk in memory fail, and what a write does that fails.

ghost use Rattle.std.specs.Prelude.{◌≡◌};
ghost use Rattle.fp_disk.specs.Memory.{passes, after_call, call_progress, write_progress};

use crate::call::Progress;

/// Which calls of a disk in memory fail though nothing is wrong with them. Calls are counted from
/// 0, from now on, and each call of the trait counts, `len` and `read_at` too.
#[derive(Clone, Copy, Debug)]
pub enum Failing {
    /// None.
    Never,
    /// The call of this number and all after it: a fuse that lets so many calls pass.
    From(u64),
    /// The call of this number alone.
    At(u64),
}

/// What a write does that fails as it was told to.
#[derive(Clone, Copy, Debug)]
pub enum FailedWrite {
    /// Nothing.
    Nothing,
    /// It puts the first half of its bytes, rounded down.
    Half,
}

impl Failing {
    // Whether the next call passes.
    pub(crate) fn passes(self) -> bool
        ensures { result ≡ passes self }
    {
        match self {
            Failing::Never => true,
            Failing::From(left) | Failing::At(left) => 0 < left,
        }
    }

    // How much the next call does, if it isn't a write.
    pub(crate) fn progress(self) -> Progress
        ensures { result ≡ call_progress self }
    {
        if self.passes() {
            Progress::Whole
        } else {
            Progress::Nothing
        }
    }

    // What is left of it after a call.
    pub(crate) fn after_call(self) -> Failing
        ensures { result ≡ after_call self }
    {
        match self {
            Failing::Never | Failing::At(0) => Failing::Never,
            Failing::From(left) => Failing::From(left.saturating_sub(1)),
            Failing::At(left) => Failing::At(left - 1),
        }
    }
}

impl FailedWrite {
    // How much the next call does, if it is a write.
    pub(crate) fn progress(self, failing: Failing) -> Progress
        ensures { result ≡ write_progress self failing }
    {
        if failing.passes() {
            return Progress::Whole;
        }
        match self {
            FailedWrite::Nothing => Progress::Nothing,
            FailedWrite::Half => Progress::Half,
        }
    }
}
