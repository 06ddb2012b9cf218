//! The rule that each step on the published value keeps.

ghost use Rattle.std.specs.Prelude.{None};
ghost use Rattle.fp_publish.specs.Rule.{KeepsFronts, Sees as SeesPublished};

use crate::page::Page;
use atomic_table::{Join, Split};
use crossbeam_utils::rule::{Outcome, Protocol};
use fp_group_commit::Part;

/// What is published stands for a front, which goes on from each front that any seat knows.
pub(crate) struct OnlyGrows;

impl Protocol<Page, Option<Part>> for OnlyGrows {
    ghost holds = { KeepsFronts };

    ghost first = { None };
}

/// An entry or a publication: the seat then knows the front that is published then.
pub(crate) struct Sees;

impl Outcome<Page, Option<Part>> for Sees {
    ghost then = { SeesPublished };
}

/// The board tells what it knows, and keeps it.
pub(crate) struct Tells;

impl Split<Option<Part>> for Tells {
    ghost left = { λ known. known };

    ghost right = { λ known. known };
}

/// A new seat knows what it was told.
pub(crate) struct Learns;

impl Join<Option<Part>> for Learns {
    ghost both = { λ known told. told };

    ghost spent = { None };
}
