//! Which committer a plane is of.

ghost use Rattle.fp_committer.specs.Halves.{Names};
ghost use Rattle.fp_group_commit.specs.Tokens.{Identity, first_of};
ghost use Rattle.std.specs.Prelude.{[], ℕ};

use std::marker::Brand;

/// Which committer a plane is of: its store, and what the lists of its two halves are called.
/// Contracts alone read it; who made the halves picks it.
pub trait Naming {
    ghost store: { Identity };

    // The lists of the desk's half, and those of the store's.
    ghost desk_lists: { Names };

    ghost store_lists: { Names };

    // The list that has the store's half as the plane began with it.
    ghost beginning: { ℕ };

    // The list of all edits that the plane accepts.
    ghost accepted: { ℕ };
}

impl Naming for Brand {
    ghost store = { record { name = 0; start = first_of [] } };

    ghost desk_lists = { record { all = 0; settled = 0 } };

    ghost store_lists = { record { all = 0; settled = 0 } };

    ghost beginning = { 0 };

    ghost accepted = { 0 };
}
