//! A list that only its owner lengthens, and its beginnings as tokens.

ghost use Rattle.std.specs.Prelude.{◌≡◌, ℕ, List, [], ◌++◌};
ghost use mathlib.Core.List.{IsPrefix};
ghost use base.Stored.{coded_list};
ghost use base.Fraction.{full_share};
ghost use denote.Sharing.{said, one};
ghost use Rattle.fp_fronts.specs.Growth.{whole, reached};

use std::marker::{Model, PhantomData};

/// Which elements a value of type `X` stands for, in order. The implementing type is a
/// marker, and is never made.
pub trait Lists<X, E> {
    ghost items: { X → List E };
}

/// The sole right to lengthen the list `name`, which now is `log`.
///
/// The list is there in proofs alone: a value has no bytes, and no call on it takes
/// memory or an atomic step.
pub struct Growing<E> {
    marker: PhantomData<E>,
    pub ghost name: { ℕ },
    pub ghost log: { List E } by { coded_list E.code },
}

impl<E> Model for Growing<E> {
    ghost also_owns = { λ s. whole E.row.coded.code full_share s.name s.log };

    ghost also_shares = { λ s _ κ. one (λ q. whole E.row.coded.code q s.name s.log) κ };
}

/// A beginning of the list `name`: it began with `log` once, so it does for good.
///
/// Like the list itself it has no bytes, and it may be sent and shared over threads.
pub struct Front<E> {
    marker: PhantomData<E>,
    pub ghost name: { ℕ },
    pub ghost log: { List E } by { coded_list E.code },
}

impl<E> Model for Front<E> {
    ghost also_owns = { λ f. reached E.row.coded.code f.name f.log };

    ghost also_shares = { λ f _ κ. said (reached E.row.coded.code f.name f.log) κ };
}

impl<E> Growing<E> {
    /// A new list, empty, with a name that no other list has, and its empty beginning.
    pub fn new() -> (Growing<E>, Front<E>)
        ensures { (result.0.log ≡ []) × (result.1.log ≡ []) × (result.1.name ≡ result.0.name) }
    {
        (
            Growing {
                marker: PhantomData,
            },
            Front {
                marker: PhantomData,
            },
        )
    }

    /// Puts what `more` lists behind the list, as the marker `M` has it, and gives the whole list
    /// as a front of its name. The name stays.
    pub fn lengthen<X, M: Lists<X, E>>(&mut self, more: &X) -> Front<E>
        ensures { (self.new.name ≡ self.old.name)
            × (self.new.log ≡ self.old.log ++ M.items more.now) × (result.name ≡ self.old.name)
            × (result.log ≡ self.new.log) }
    {
        let _ = more;
        Front {
            marker: PhantomData,
        }
    }

    /// Shows that a front of this list begins it. Does nothing when it runs.
    pub fn confirm(&self, front: &Front<E>)
        // The front has this list's name.
        requires { front.now.name ≡ self.now.name }
        ensures { IsPrefix front.now.log self.now.log }
    {
        let _ = front;
    }
}

impl<E> Front<E> {
    /// The same front once more.
    pub fn again(&self) -> Front<E>
        ensures { result ≡ self.now }
    {
        Front {
            marker: PhantomData,
        }
    }

    /// Shows that some list begins with both fronts, so that the shorter begins the longer. Does
    /// nothing when it runs.
    pub fn meets(&self, other: &Front<E>)
        // Both have one name.
        requires { other.now.name ≡ self.now.name }
        ensures { (whole : List E) × IsPrefix self.now.log whole × IsPrefix other.now.log whole }
    {
        let _ = other;
    }
}

impl<E> Drop for Growing<E> {
    fn drop(self) {
        let Self { marker: _ } = self;
    }
}

impl<E> Drop for Front<E> {
    fn drop(self) {
        let Self { marker: _ } = self;
    }
}

unsafe impl<E> Send for Growing<E> {}

unsafe impl<E> Sync for Growing<E> {}

unsafe impl<E> Send for Front<E> {}

unsafe impl<E> Sync for Front<E> {}
