//! Two runs under one contract: the headline.
ghost use Rattle.std.specs.Prelude.{IfOk};
ghost use Rattle.bufr_archive.specs.Headline.{run_of, WasRun, RunsConverge};

use crate::depot::Depot;
use crate::laws::headline;
use crate::steps::{Answer, Step, StepFault};
use bufr_base::OutOfMemory;
use bufr_shelves::Shelf;
use bufr_tables::Tables;
use std::alloc::Global;

/// A plan of a run: steps for a new depot.
#[derive(Clone, Copy)]
pub struct Plan<'t, 's> {
    /// The tables.
    pub tables: &'t Tables,
    /// The number of slots of the depot.
    pub slots: usize,
    /// The steps, in order.
    pub steps: &'s [Step],
}

/// A finished run.
#[derive(Drop)]
pub struct Ran<'t, S: Shelf> {
    /// Its depot.
    pub depot: Depot<'t, S>,
    /// The answer or fault of each step, in order.
    pub answers: Vec<Result<Answer, StepFault>>,
}

impl<'t, 's> Plan<'t, 's> {
    /// Runs the plan.
    pub fn run<S: Shelf>(&self, alloc: Global) -> Result<Ran<'t, S>, OutOfMemory>
        ensures { IfOk result (λ ran. WasRun (run_of self.now.tables.now self.now.slots
            self.now.steps.now ran.answers.items ran.depot)) }
    {
        let mut depot = Depot::new(alloc, self.tables, self.slots)?;
        let answers = depot.run(self.steps)?;
        Ok(Ran { depot, answers })
    }
}

/// Runs both plans with `Depot::run`. Under the same tables, archives of both whose ended streams
/// have the same messages hold the same reports and write the same octets.
pub fn run_both<'t, 'u, S: Shelf, R: Shelf>(
    alloc: Global,
    one: &Plan<'t, '_>,
    other: &Plan<'u, '_>,
) -> Result<(Ran<'t, S>, Ran<'u, R>), OutOfMemory>
    ensures first { IfOk result (λ both. WasRun
        (run_of one.now.tables.now one.now.slots one.now.steps.now
        both.0.answers.items both.0.depot)) }
    ensures second { IfOk result (λ both. WasRun
        (run_of other.now.tables.now other.now.slots other.now.steps.now
        both.1.answers.items both.1.depot)) }
    ensures converge { IfOk result (λ both. RunsConverge
        (run_of one.now.tables.now one.now.slots one.now.steps.now
        both.0.answers.items both.0.depot)
        (run_of other.now.tables.now other.now.slots other.now.steps.now
        both.1.answers.items both.1.depot)) }
{
    headline();
    let first = one.run(alloc)?;
    let second = other.run(alloc)?;
    Ok((first, second))
}
