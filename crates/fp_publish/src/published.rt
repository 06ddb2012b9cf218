//! What is published, and what is lent of it.

ghost use Rattle.std.specs.Prelude.{◌≡◌, IfOk};
ghost use Rattle.fp_group_commit.specs.Tokens.{front_revision, front_set};
ghost use Rattle.fp_desk.specs.Desk.{settled_front};
ghost use Rattle.fp_publish.specs.Rule.{IsConsistent};

use crate::page::Page;
use crate::shown::Shown;
use fp_desk::Desk;
use fp_edit::FlagSet;
use std::alloc::AllocError;
use std::marker::Model;

/// The set that some front of a store's edits leads to.
#[derive(Drop)]
pub struct Published {
    page: Page,
}

impl Model for Published {
    ghost use Rattle.std.specs.Coded.{codes};
    ghost use Rattle.fp_edit.specs.Flags.{coded_state};
    ghost use Rattle.fp_group_commit.specs.Changes.{coded_change};
    ghost use Rattle.fp_group_commit.specs.Tokens.{FrontState};

    ghost Value = { FrontState };

    ghost coded = { Prim.hlevel (codes, coded_state, coded_change) };

    ghost use Rattle.fp_publish.specs.Rule.{IsConsistent};

    ghost view = { λ p. p.page.front };

    ghost invariant = { λ p. IsConsistent p.page };
}

impl Published {
    /// The desk's settled set, for who publishes without a board.
    pub fn build(desk: &Desk) -> Result<Published, AllocError>
        ensures { IfOk result (λ p. p ≡ settled_front desk.now) }
    {
        let page = Page {
            set: desk.settled_copy()?,
            front: desk.told().part().again(),
        };
        Ok(Published { page })
    }

    /// Lends it.
    pub fn view(&self) -> View<'_>
        ensures { result ≡ self.now }
    {
        View::of(&self.page)
    }

    pub(crate) fn into_page(self) -> Page
        ensures consistent { IsConsistent result }
        ensures front { result.front ≡ self }
    {
        self.page
    }
}

/// What is published, lent to who evaluates flags over it.
#[derive(Drop)]
pub struct View<'a> {
    page: &'a Page,
}

impl<'a> Model for View<'a> {
    ghost use Rattle.std.specs.Coded.{codes};
    ghost use Rattle.fp_edit.specs.Flags.{coded_state};
    ghost use Rattle.fp_group_commit.specs.Changes.{coded_change};
    ghost use Rattle.fp_group_commit.specs.Tokens.{FrontState};

    ghost Value = { FrontState };

    ghost coded = { Prim.hlevel (codes, coded_state, coded_change) };

    ghost use Rattle.fp_publish.specs.Rule.{IsConsistent};

    ghost view = { λ v. v.page.now.front };

    ghost invariant = { λ v. IsConsistent v.page.now };
}

impl<'a> View<'a> {
    pub(crate) fn of(page: &'a Page) -> View<'a>
        requires { IsConsistent page.now }
        ensures { result ≡ page.now.front }
    {
        View { page }
    }

    /// The flags: those that its front leads to.
    pub fn set(&self) -> &FlagSet
        ensures { result.now ≡ front_set self.now }
    {
        &self.page.set
    }

    /// The revision of its front.
    pub fn revision(&self) -> u64
        ensures { result ≡ front_revision self.now }
    {
        self.page.revision()
    }

    /// A token that these edits are shown. It takes no memory.
    pub fn shown(&self) -> Shown
        ensures { result ≡ self.now }
    {
        self.page.shown()
    }
}
