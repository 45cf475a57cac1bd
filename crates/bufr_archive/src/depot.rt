ghost use Rattle.std.specs.Prelude.{◌≡◌, ◌<◌, List, length, slice_get, IfOk, OnErr, vec_len};
ghost use Rattle.std.specs.Option.{option_map};
ghost use Rattle.bufr_archive.specs.Slots.{Slot, new_slots};
ghost use Rattle.bufr_archive.specs.Runs.{IsAnswer, after, Run, after_all};
ghost use Rattle.bufr_archive.specs.Holdings.{StandsFor};
ghost use Rattle.bufr_archive.specs.HeldSteps.{StepDoes};
ghost use Rattle.bufr_archive.specs.declared.steps.Step.TheVariants.{Feed, End};

use crate::archive::Archive;
use crate::intakes::Intake;
use crate::laws::reports_told_are_under;
use crate::steps::{Answer, Step, StepFault};
use bufr_base::OutOfMemory;
use bufr_shelves::Shelf;
use bufr_tables::Tables;
use std::alloc::Global;
use std::marker::Model;

/// A depot: archives under some tables, each with a stream.
#[derive(Drop)]
pub struct Depot<'t, S: Shelf> {
    pub(crate) alloc: Global,
    pub(crate) tables: &'t Tables,
    pub(crate) slots: Vec<Intake<'t, S>>,
}

impl<'t, S: Shelf> Model for Depot<'t, S> {
    ghost use Rattle.bufr_archive.specs.Holdings.{DepotView};
    ghost use Rattle.bufr_archive.specs.HeldSteps.{AreAllUnder};

    ghost Value = { DepotView };

    ghost view = { λ d. record { tables = d.tables.now; slots = d.slots.items } };

    ghost invariant = { λ d. AreAllUnder d.tables.now d.slots.items };
}

impl<'t, S: Shelf> Depot<'t, S> {
    /// Makes a depot with `slots` empty archives and streams.
    pub fn new(alloc: Global, tables: &'t Tables, slots: usize) -> Result<Self, OutOfMemory>
        ensures tables { IfOk result (λ depot. depot.tables ≡ tables.now) }
        ensures slots { IfOk result (λ depot. StandsFor depot (new_slots slots)) }
    {
        let mut held = Vec::new(alloc);
        for _ in 0..slots {
            held.push(Intake::new(alloc, tables))?;
        }
        Ok(Depot {
            alloc,
            tables,
            slots: held,
        })
    }

    /// Does a step. It adds messages as soon as their frames are sure. A repeated step completes
    /// one that ran out of memory.
    pub fn step(&mut self, step: &Step) -> Result<Answer, StepFault>
        ensures tables { self.new.tables ≡ self.old.tables }
        ensures answer { (slots : List Slot) → StandsFor self.old slots
            → IsAnswer self.old.tables step.now slots result }
        ensures slots { (slots : List Slot) → StandsFor self.old slots
            → StandsFor self.new (after self.old.tables step.now result slots) }
    {
        match step {
            Step::Feed { slot, piece } => self.feed(*slot, piece.as_slice()),
            Step::End { slot } => self.end(*slot),
            Step::Merge { from, into } => self.merge(*from, *into),
            Step::Transfer { from, into } => self.transfer(*from, *into),
            Step::Copy { from, into } => self.copy(*from, *into),
        }
    }

    /// Does steps one by one, and returns each answer or fault. If memory runs out for this list,
    /// it does no step.
    pub fn run(&mut self, steps: &[Step]) -> Result<Vec<Result<Answer, StepFault>>, OutOfMemory>
        ensures tables { self.new.tables ≡ self.old.tables }
        ensures answers { IfOk result (λ answers. (slots : List Slot) → StandsFor self.old slots
            → Run self.old.tables steps.now answers.items slots) }
        ensures slots { IfOk result (λ answers. (slots : List Slot) → StandsFor self.old slots
            → StandsFor self.new (after_all self.old.tables steps.now answers.items slots)) }
        ensures err { OnErr result (self.new ≡ self.old) }
    {
        let mut answers = Vec::with_capacity(self.alloc, steps.len())?;
        for step in steps {
            answers.push_reserved(self.step(step));
        }
        Ok(answers)
    }

    /// Returns the archive of a slot.
    pub fn archive(&self, slot: usize) -> Option<&Archive<'t, S>>
        ensures { option_map (λ a. a.now) result
            ≡ option_map (λ h. h.archive) (slice_get self.now.slots slot) }
    {
        let intake = self.slots.get(slot)?;
        Some(&intake.archive)
    }

    fn feed(&mut self, slot: usize, piece: &[u8]) -> Result<Answer, StepFault>
        ensures { StepDoes self.old self.new (Feed slot piece.now) result }
    {
        reports_told_are_under();
        if slot >= self.slots.len() {
            return Err(StepFault::NoSlot(slot));
        }
        self.slots[slot].feed(piece)
    }

    fn end(&mut self, slot: usize) -> Result<Answer, StepFault>
        ensures { StepDoes self.old self.new (End slot) result }
    {
        reports_told_are_under();
        if slot >= self.slots.len() {
            return Err(StepFault::NoSlot(slot));
        }
        self.slots[slot].end()
    }
}
