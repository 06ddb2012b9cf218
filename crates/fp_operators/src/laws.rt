//! Facts about the operators that hold at all data. Each function does nothing when it runs: its
//! contract is the fact, and the check of this crate proves it.

ghost use Rattle.fp_operators.specs.Laws.{
  StrictIsSameness,
  StrictImpliesLoose,
  LooseIsSymmetric,
  OrderReverses,
  OrderIsTotal,
  NumbersAreOrdered,
  TextsAreOrdered,
  NumbersAscend,
  TextsAscend,
  AtMostIsBelowOrEqual,
  DecimalsReadBack,
  RemaindersAreExact,
  PartsStandInside,
  PrefixesStandFirst,
  SuffixesStandLast,
  VersionsFollowTheGrammar,
  BuildIsIgnored,
  PreReleasesComeFirst,
};

/// Laws of strict and of loose equality.
pub fn equality_laws()
    // `===` holds of exactly two scalars that are one and the same.
    ensures sameness { StrictIsSameness }
    // It implies `==`.
    ensures implied { StrictImpliesLoose }
    // `==` of two data is that of the same turned round.
    ensures symmetric { LooseIsSymmetric }
{}

/// Laws of the order of data. Across kinds it isn't transitive (`"10" < "9"`, and `9 < "10"`).
pub fn order_laws()
    // The order of two data is the reverse of that of the same turned round.
    ensures reverses { OrderReverses }
    // Of two data that have an order exactly one of below, loosely equal and above holds.
    ensures total { OrderIsTotal }
    // Two numbers have an order.
    ensures numbers { NumbersAreOrdered }
    // Two texts have an order.
    ensures texts { TextsAreOrdered }
    // Among numbers, what is below a number that is below a third is below that.
    ensures numbers_ascend { NumbersAscend }
    // The same among texts.
    ensures texts_ascend { TextsAscend }
    // Of two data that have an order `<=` is below, or loosely equal.
    ensures at_most { AtMostIsBelowOrEqual }
{}

/// Laws of numbers, and of the texts that write them.
pub fn number_laws()
    // A number is read back from its decimal text.
    ensures read_back { DecimalsReadBack }
    // A remainder is what a division leaves that rounds towards zero.
    ensures remainders { RemaindersAreExact }
{}

/// Laws of parts of texts.
pub fn text_laws()
    // `in` of two texts means that the first stands inside the second.
    ensures parts { PartsStandInside }
    // `starts_with` means that the second stands first in the first.
    ensures prefixes { PrefixesStandFirst }
    // `ends_with` means that the second stands last in the first.
    ensures suffixes { SuffixesStandLast }
{}

/// Laws of versions.
pub fn version_laws()
    // A version is exactly a text that Semantic Versioning 2.0.0 allows, without one leading `v`
    // and filled up to three groups; major, minor and patch are below 2^64, numeric identifiers of
    // any size.
    ensures grammar { VersionsFollowTheGrammar }
    // Build metadata changes no comparison.
    ensures build { BuildIsIgnored }
    // A pre-release comes before its release.
    ensures pre_releases { PreReleasesComeFirst }
{}
