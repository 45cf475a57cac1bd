//! Joins of two slots of a depot.
ghost use Rattle.std.specs.Prelude.{◌≡◌, ◌<◌, ℕ, length, IfErr, OnOk, OnErr};
ghost use Rattle.bufr_archive.specs.HeldSteps.{AreThere, IsFirstMissing, IsJoin, StepDoes, TakesIn};
ghost use Rattle.bufr_archive.specs.declared.steps.Step.{Step as AStep};
ghost use Rattle.bufr_archive.specs.declared.steps.StepFault.TheVariants.{NoSlot as MissingSlot};

use crate::archive::Archive;
use crate::depot::Depot;
use crate::steps::{Answer, StepFault};
use bufr_bits::device::IntoWrite;
use bufr_shelves::Shelf;
use std::mem;

impl<'t, S: Shelf> Depot<'t, S> {
    /// Merges the archive of a slot into another, which it takes out meanwhile. A merge with itself
    /// changes nothing.
    pub(crate) fn merge(&mut self, from: usize, into: usize) -> Result<Answer, StepFault>
        ensures { (step : AStep) → IsJoin step from into → StepDoes self.old self.new step result }
    {
        self.find(from, into)?;
        if from == into {
            return Ok(Answer::Joined);
        }
        let empty = Archive::new(self.alloc, self.tables);
        let mut archive = mem::replace(&mut self.slots[into].archive, empty);
        let merged = archive.merge(&self.slots[from].archive);
        self.slots[into].archive = archive;
        match merged {
            Ok(()) => Ok(Answer::Joined),
            Err(_) => Err(StepFault::OutOfMemory { joined: 0 }),
        }
    }

    /// Writes the archive of a slot, reads it back and merges it into another.
    pub(crate) fn transfer(&mut self, from: usize, into: usize) -> Result<Answer, StepFault>
        ensures { (step : AStep) → IsJoin step from into → StepDoes self.old self.new step result }
    {
        self.find(from, into)?;
        let mut sink = IntoWrite::new(Vec::new(self.alloc));
        let Ok(()) = self.slots[from].archive.write(&mut sink) else {
            return Err(StepFault::OutOfMemory { joined: 0 });
        };
        let text = sink.into_inner();
        // A written text reads back, unless memory runs out.
        let Ok(archive) = Archive::read(self.alloc, self.tables, &text) else {
            return Err(StepFault::OutOfMemory { joined: 0 });
        };
        self.take_in(into, &archive)
    }

    pub(crate) fn copy(&mut self, from: usize, into: usize) -> Result<Answer, StepFault>
        ensures { (step : AStep) → IsJoin step from into → StepDoes self.old self.new step result }
    {
        self.find(from, into)?;
        let Ok(archive) = self.slots[from].archive.copy() else {
            return Err(StepFault::OutOfMemory { joined: 0 });
        };
        self.take_in(into, &archive)
    }

    /// Checks that both slots are there, `from` first.
    fn find(&self, from: usize, into: usize) -> Result<(), StepFault>
        ensures there { OnOk result (AreThere self.now from into) }
        ensures missing { IfErr result (λ fault. (i : ℕ) × (fault ≡ MissingSlot i)
            × IsFirstMissing self.now from into i) }
    {
        let count = self.slots.len();
        if from >= count {
            return Err(StepFault::NoSlot(from));
        }
        if into >= count {
            return Err(StepFault::NoSlot(into));
        }
        Ok(())
    }

    fn take_in(&mut self, into: usize, archive: &Archive<'t, S>) -> Result<Answer, StepFault>
        requires there { into < length self.old.slots }
        requires tables { archive.now.tables ≡ self.old.tables }
        ensures { TakesIn self.old self.new into archive.now result }
    {
        match self.slots[into].archive.merge(archive) {
            Ok(()) => Ok(Answer::Joined),
            Err(_) => Err(StepFault::OutOfMemory { joined: 0 }),
        }
    }
}
