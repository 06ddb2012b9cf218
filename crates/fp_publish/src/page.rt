//! What both copies of the published value hold, and the steps by which they go on.

ghost use Rattle.std.specs.Prelude.{◌≡◌, IfOk};
ghost use Rattle.fp_group_commit.specs.Tokens.{front_revision};
ghost use Rattle.fp_publish.specs.Rule.{IsConsistent, page_after};

use crate::shown::Shown;
use fp_edit::{Edit, FlagSet};
use fp_group_commit::Part;
use left_right::Absorb;
use std::alloc::AllocError;

/// A set, and the front that it stands for once all steps up to the last `Settled` are taken.
#[derive(Drop)]
pub(crate) struct Page {
    pub(crate) set: FlagSet,
    pub(crate) front: Part,
}

/// A step from one page to the next.
#[derive(Drop)]
pub(crate) enum Step {
    /// An edit is taken into the set.
    Change(Edit),
    /// All that was taken in by now is this front.
    Settled(Part),
    /// Another set and front take the place of these.
    Whole(FlagSet, Part),
}

impl Page {
    /// The revision that its front reaches.
    pub fn revision(&self) -> u64
        requires { IsConsistent self.now }
        ensures { result ≡ front_revision self.now.front }
    {
        self.set.revision()
    }

    /// What evaluators are told of it.
    pub fn shown(&self) -> Shown
        requires { IsConsistent self.now }
        ensures { result ≡ self.now.front }
    {
        Shown::new(self.revision(), self.front.again())
    }

    /// The same once more. It shares the definitions.
    pub fn try_copy(&self) -> Result<Page, AllocError>
        ensures { IfOk result (λ copy. copy ≡ self.now) }
    {
        Ok(Page {
            set: self.set.try_copy()?,
            front: self.front.again(),
        })
    }
}

impl Absorb<Step> for Page {
    type State = Page;

    ghost state = { λ p. p };

    ghost applied = { page_after };

    fn absorb_first(&mut self, operation: &Step, _other: &Page) -> Result<(), AllocError> {
        match operation {
            Step::Change(edit) => match self.set.admit(edit.try_copy()?) {
                Ok(_) => Ok(()),
                Err(_) => Err(AllocError),
            },
            Step::Settled(front) => {
                self.front = front.again();
                Ok(())
            }
            Step::Whole(set, front) => {
                self.set = set.try_copy()?;
                self.front = front.again();
                Ok(())
            }
        }
    }

    fn absorb_second(&mut self, operation: Step, _other: &Page) -> Result<(), Step> {
        match operation {
            Step::Change(edit) => match self.set.admit(edit) {
                Ok(_) => Ok(()),
                Err((_, edit)) => Err(Step::Change(edit)),
            },
            Step::Settled(front) => {
                self.front = front;
                Ok(())
            }
            Step::Whole(set, front) => {
                self.set = set;
                self.front = front;
                Ok(())
            }
        }
    }
}
