//! Facts about rules that hold at all of them. Each function does nothing when it runs: its
//! contract is the fact, and the check of this crate proves it.

ghost use Rattle.fp_targeting.specs.Laws.{TruthIsOfTheResult, NotTwiceIsTruth};
ghost use Rattle.fp_targeting.specs.Laws.{DataUnnamedAreUnused};

/// Laws of what rules mean.
pub fn meaning_laws()
    // `!!` of a rule gives exactly the truth of the rule's result.
    ensures truth { TruthIsOfTheResult }
    // `!` twice means the same as `!!`.
    ensures negation { NotTwiceIsTruth }
    // A rule without `var` and `fractional` means the same on all data.
    ensures unnamed { DataUnnamedAreUnused }
{}
