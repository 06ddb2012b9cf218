//! Code that is being built.

ghost use Rattle.std.specs.Prelude.{◌≡◌, ◌+◌, IfOk, OnOk};
ghost use Rattle.fp_machine.specs.declared.code.Step.TheVariants.{End};
ghost use Rattle.fp_targeting.specs.Emits.{Pushed, Raised};

use fp_machine::{Code, Operator, Step};
use std::alloc::AllocError;

/// Code that is being built: what is added last is done first.
#[derive(Drop)]
pub struct Builder {
    pub code: Code,
}

impl Builder {
    /// Gives back the room that instructions and constants don't need.
    pub fn shrink(&mut self)
        ensures steps { self.new.code.steps.items ≡ self.old.code.steps.items }
        ensures pool { self.new.code.pool.items ≡ self.old.code.pool.items }
        ensures room { self.new.code.room ≡ self.old.code.room }
    {
        self.code.steps.shrink_to_fit();
        self.code.pool.shrink_to_fit();
    }

    /// One more instruction, to be done before those that are there.
    pub fn push(&mut self, step: Step) -> Result<(), AllocError>
        ensures { OnOk result (Pushed step self.old.code self.new.code) }
    {
        self.code.steps.push(step)?;
        Ok(())
    }

    /// An instruction that keeps one more result, so many with it, is to be done first.
    pub fn keep(&mut self, step: Step, above: usize) -> Result<(), AllocError>
        ensures { OnOk result (Raised step above self.old.code self.new.code) }
    {
        self.code.steps.push(step)?;
        self.code.room = self.code.room.max(above);
        Ok(())
    }

    /// An operator's arguments end here.
    pub fn end(&mut self, operator: Operator, count: usize) -> Result<(), AllocError>
        ensures { OnOk result (Pushed (End operator count) self.old.code self.new.code) }
    {
        let count = short(count)?;
        self.push(Step::End(operator, count))?;
        Ok(())
    }
}

/// As the count of an instruction.
pub fn short(count: usize) -> Result<u32, AllocError>
    ensures { IfOk result (λ n. n ≡ count) }
{
    match u32::try_from(count) {
        Ok(count) => Ok(count),
        Err(_) => Err(AllocError),
    }
}

/// So many more kept results. More than there are numbers for can't be had.
pub fn above(height: usize, more: usize) -> Result<usize, AllocError>
    ensures { IfOk result (λ n. n ≡ height + more) }
{
    height.checked_add(more).ok_or(AllocError)
}
