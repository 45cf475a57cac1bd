//! Walks through a template, field by field.

ghost use Rattle.std.specs.Prelude.{◌≡◌, ◌≤◌, ◌+◌, ◌-◌, min, length};
ghost use Rattle.std.specs.Vec.{vec_capacity};
ghost use Rattle.bufr_expand.specs.Places.{AreOpen, AreOpen-prop, in_front, replications, begins};
ghost use Rattle.bufr_expand.specs.Places.{awaited};
ghost use Rattle.bufr_expand.specs.OperatorsInForce.{factor_spec};
ghost use Rattle.bufr_expand.specs.Asked.{none_between};
ghost use Rattle.std.specs.Prelude.{true};
ghost use Rattle.std.specs.Bool.{OnTrue};

use crate::asks::Asks;
use crate::even_turns::{EvenTurns, fields_of};
use crate::limits::MOST_ITEMS;
use crate::node::Node;
use crate::operators::{Operators, Spec, untouched};
use crate::run::{Run, front_run, turns_run};
use crate::template::Template;
use crate::walk_state::{Open, PendingCount, State};
use bufr_base::OutOfMemory;
use bufr_tables::{Element, Fxy, Kind};
use std::alloc::Global;
use thiserror::Error;

/// A step of a walk.
#[derive(Clone, Copy, Debug, PartialEq, Eq)]
pub enum Step {
    /// The next field.
    Field(Fxy, Spec),
    /// A field whose number repeats what follows. The walk waits for `Walk::count`.
    Count(Fxy, Spec),
    /// The end of the subset.
    End,
}

/// A fault of a walk.
#[derive(Clone, Copy, Debug, Error, PartialEq, Eq)]
pub enum WalkFault {
    /// An item up to the next field, or the end, is above the limit.
    #[error("V6 TooLarge")]
    TooLarge,
    /// The spec of the next field is outside the limits.
    #[error("V1 EffectiveRange {0}")]
    EffectiveRange(Fxy),
}

/// A walk over the fields of one subset, given the numbers of its counts.
#[derive(Drop)]
pub struct Walk<'t> {
    nodes: &'t [Node],
    place: usize,
    stop: usize,
    loops: Vec<Open>,
    operators: Operators,
    items: u64,
    state: State,
    ghost within: { (place ≤ length nodes.now) × (stop ≤ length nodes.now) },
    ghost in_bodies: { AreOpen nodes.now 0 loops.items } by { AreOpen-prop nodes.now 0 loops.items },
    ghost has_begun: { begins state place ≤ place },
    ghost is_inside: { length loops.items + awaited state ≤ in_front nodes.now
        (begins state place) },
    ghost has_room: { replications nodes.now ≤ vec_capacity loops },
}

impl<'t> Walk<'t> {
    ghost use Rattle.std.specs.Prelude.{◌<◌, ◌*◌, false, IfOk, IfSome, IfNone, OnErr};
    ghost use Rattle.bufr_expand.specs.OperatorsInForce.{in_force_after, untouched};
    ghost use Rattle.bufr_expand.specs.Limits.{most_items};
    ghost use Rattle.bufr_expand.specs.Trees.{tree_of};
    ghost use Rattle.bufr_expand.specs.Courses.{course, ends, stops, asks, asks_if};
    ghost use Rattle.bufr_expand.specs.Walks.{left, waits, items_met, steps_left, going, after_count};
    ghost use Rattle.bufr_expand.specs.Walks.{turns_then, behind_all, Goes, Counted, IsBelowCount};
    ghost use Rattle.bufr_expand.specs.Walks.{tree_between};
    ghost use Rattle.bufr_expand.specs.Asked.{TellsNone};
    ghost use Rattle.bufr_expand.specs.Runs.{BeginsRun, PassesRun, IsInnermost, HasLeft};
    ghost use Rattle.bufr_expand.specs.EvenTurns.{PassesTurns};
    ghost use Rattle.bufr_expand.specs.declared.walk_state.State.TheVariants.{Going};
    ghost use Rattle.bufr_expand.specs.declared.walk.Step.TheVariants.{Field};
    ghost use Rattle.std.specs.Prelude.{Ok};

    /// Starts a walk after `used` items of the message, with room for all levels.
    pub fn start(alloc: Global, template: &'t Template, used: u64) -> Result<Walk<'t>, OutOfMemory>
        ensures course { IfOk result (λ w. left w ≡ course template.now used) }
        ensures answered { IfOk result (λ w. waits w ≡ false) }
        ensures items { IfOk result (λ w. items_met w ≡ used) }
    {
        let nodes = template.nodes.as_slice();
        let loops = Vec::with_capacity(alloc, template.levels)?;
        Ok(Walk {
            nodes,
            place: 0,
            stop: nodes.len(),
            loops,
            operators: Operators::none(),
            items: used,
            state: State::Going,
        })
    }

    /// Steps to the next field, count or end. After a fault or the end it returns the same again.
    #[tactic(auto, unfolding(crate::specs::Walks::left, crate::specs::Walks::waits, crate::specs::Walks::items_met))]
    pub fn next(&mut self) -> Result<Step, WalkFault>
        requires { waits self.old ≡ false }
        ensures { Goes (left self.old) result self.new }
    {
        loop {
            let answer = match self.state {
                State::Stopped(fault) => Some(Err(fault)),
                State::Waiting(asked) => Some(Ok(Step::Count(asked.fxy, asked.spec))),
                State::Going if self.place < self.stop => self.visit(),
                State::Going => self.turn(),
            };
            if let Some(answer) = answer {
                return answer;
            }
        }
    }

    /// Takes the number for the count that the walk waits for.
    pub fn count(&mut self, n: u64)
        requires asked { waits self.old ≡ true }
        requires fits { IsBelowCount (left self.old) n }
        ensures { Counted (left self.old) n self.new }
    {
        if let State::Waiting(asked) = self.state {
            match asked.body {
                None => self.state = State::Going,
                Some(from) => self.enter(n, from),
            }
        }
    }

    /// Passes all turns left of a replication, if they have equal fields whatever the data are, in
    /// at most `most` bits.
    pub fn pass_turns(&mut self, most: u128) -> Option<Run>
        requires { waits self.old ≡ false }
        ensures passed { IfSome result (λ run. PassesRun self.old run self.new) }
        ensures answered { waits self.new ≡ false }
        ensures enough { IfSome result (λ run. run.bits ≤ most) }
        ensures unmoved { IfNone result (self.new ≡ self.old) }
    {
        let turn = self.turns_left()?;
        let body = &self.nodes[turn.from..turn.to];
        let run = turns_run(turn.turns, body, &self.operators)?;
        if run.bits > most || run.items > MOST_ITEMS - self.items {
            return None;
        }
        self.leave(turn, run.items);
        Some(run)
    }

    /// Passes the elements that come next, if any, up to a count or another node, if they have at
    /// most `most` bits.
    pub fn pass_elements(&mut self, most: u128) -> Option<Run>
        requires { waits self.old ≡ false }
        ensures passed { IfSome result (λ run. PassesRun self.old run self.new) }
        ensures answered { waits self.new ≡ false }
        ensures enough { IfSome result (λ run. run.bits ≤ most) }
        ensures unmoved { IfNone result (self.new ≡ self.old) }
    {
        match self.state {
            State::Going if self.place < self.stop && self.items < MOST_ITEMS => {}
            _ => return None,
        }
        let run = front_run(&self.nodes[self.place..self.stop], &self.operators);
        if run.items == 0 || run.bits > most || run.items > MOST_ITEMS - self.items {
            return None;
        }
        self.go_past(run);
        Some(run)
    }

    /// Goes past the elements of a run.
    fn go_past(&mut self, run: Run)
        requires goes { self.old.state ≡ Going }
        requires within { self.old.place + run.items ≤ self.old.stop }
        requires begins { BeginsRun (tree_between self.old.nodes.now self.old.place self.old.stop)
            self.old.operators run
            (tree_between self.old.nodes.now (self.old.place + run.items) self.old.stop) }
        requires room { self.old.items + run.items ≤ most_items }
        requires some { 0 < run.items }
        ensures { PassesRun self.old run self.new }
    {
        self.place += run.items as usize;
        self.items += run.items;
    }

    /// Passes all turns left of a replication, if their nodes are elements and none is a count.
    pub fn lay_turns(&mut self, alloc: Global) -> Result<Option<EvenTurns>, OutOfMemory>
        requires { waits self.old ≡ false }
        ensures passed { IfOk result (λ found. IfSome found (λ turns.
            PassesTurns self.old turns self.new)) }
        ensures unmoved { IfOk result (λ found. IfNone found (self.new ≡ self.old)) }
        ensures err { OnErr result (self.new ≡ self.old) }
    {
        let Some(turn) = self.turns_left() else {
            return Ok(None);
        };
        let body = &self.nodes[turn.from..turn.to];
        let Some(fields) = fields_of(alloc, body, &self.operators)? else {
            return Ok(None);
        };
        let turns = turn.turns;
        match turns.checked_mul(fields.len() as u64 + 1) {
            Some(items) if items <= MOST_ITEMS - self.items => {
                self.leave(turn, items);
                Ok(Some(EvenTurns { turns, fields }))
            }
            _ => Ok(None),
        }
    }

    /// Returns the innermost replication if the nodes at hand are passed and turns of it are left.
    fn turns_left(&self) -> Option<Open>
        ensures innermost { IfSome result (IsInnermost self.now) }
        ensures some { IfSome result (λ turn. 0 < turn.turns) }
        ensures room { IfSome result (λ turn. self.now.items ≤ most_items) }
        ensures order { IfSome result (λ turn. turn.from ≤ turn.to) }
        ensures within { IfSome result (λ turn. turn.to ≤ length self.now.nodes.now) }
    {
        if !matches!(self.state, State::Going) || self.place < self.stop {
            return None;
        }
        let turn = *self.loops.last()?;
        if turn.turns == 0 || self.items > MOST_ITEMS {
            return None;
        }
        Some(turn)
    }

    /// Leaves the innermost replication after all turns left, which have these items.
    fn leave(&mut self, turn: Open, items: u64)
        requires innermost { IsInnermost self.old turn }
        requires room { self.old.items + items ≤ most_items }
        ensures { HasLeft self.old turn items self.new }
    {
        self.loops.pop();
        self.items += items;
        self.place = turn.to;
        self.stop = turn.stop;
    }

    /// Steps past the next field if an element comes next whose field is no count. Returns its
    /// descriptor and its spec.
    #[inline(always)]
    pub fn pass_element(&mut self) -> Option<(Fxy, Spec)>
        requires { waits self.old ≡ false }
        ensures passed { IfSome result (λ field.
            Goes (left self.old) (Ok (Field field.0 field.1)) self.new) }
        ensures answered { waits self.new ≡ false }
        ensures unmoved { IfNone result (self.new ≡ self.old) }
    {
        let (fxy, spec) = self.field_ahead()?;
        match spec.kind {
            Kind::Count => None,
            _ => {
                self.pass_node();
                Some((fxy, spec))
            }
        }
    }

    /// Returns the field of the next node, if that is an element with a spec.
    #[inline(always)]
    fn field_ahead(&self) -> Option<(Fxy, Spec)>
        ensures goes { IfSome result (λ field. self.now.state ≡ Going) }
        ensures more { IfSome result (λ field. self.now.place < self.now.stop) }
        ensures fits { IfSome result (λ field. self.now.items < most_items) }
        ensures field { IfSome result (λ field. left self.now
            ≡ asks (self.now.items + 1) field.0 field.1 (λ n. going self.now.nodes.now
            (self.now.place + 1) self.now.stop self.now.loops.items self.now.operators
            (self.now.items + 1))) }
    {
        match self.state {
            State::Going if self.place < self.stop && self.items < MOST_ITEMS => {}
            _ => return None,
        }
        match &self.nodes[self.place] {
            Node::Element(fxy, element) => {
                let spec = self.operators.effective(element, *fxy).ok()?;
                Some((*fxy, spec))
            }
            Node::Untouched(fxy, element) => {
                let spec = untouched(element)?;
                Some((*fxy, spec))
            }
            Node::Operator(_) | Node::Repeated(_, _) | Node::Delayed(_, _, _) => None,
        }
    }

    #[inline(always)]
    #[tactic(auto, unfolding(crate::specs::Walks::left, crate::specs::Walks::waits, crate::specs::Walks::items_met))]
    fn pass_node(&mut self)
        requires goes { self.old.state ≡ Going }
        requires more { self.old.place < self.old.stop }
        requires fits { self.old.items < most_items }
        ensures course { left self.new ≡ going self.old.nodes.now (self.old.place + 1)
            self.old.stop self.old.loops.items self.old.operators (self.old.items + 1) }
        ensures answered { waits self.new ≡ false }
        ensures items { items_met self.new ≡ self.old.items + 1 }
    {
        self.items += 1;
        self.place += 1;
    }

    /// Returns the items of the message met.
    #[tactic(auto, unfolding(crate::specs::Walks::items_met))]
    pub fn items(&self) -> u64
        ensures { result ≡ items_met self.now }
    {
        let met = self.items;
        met
    }

    /// Returns true if no replication is open and the nodes ahead show that no chosen field is left.
    pub fn has_no_more<A: Asks>(&self, asked: &A) -> bool
        ensures { OnTrue result (TellsNone (A.is_asked asked.now) (left self.now)) }
    {
        self.loops.is_empty() && self.has_no_more_inside(asked)
    }

    /// Returns true if the nodes ahead, with all those of open replications, show that no chosen
    /// field is left.
    pub fn has_no_more_inside<A: Asks>(&self, asked: &A) -> bool
        ensures { OnTrue result (TellsNone (A.is_asked asked.now) (left self.now)) }
    {
        if !matches!(self.state, State::Going)
            || !has_none(self.nodes, self.place, self.stop, asked)
        {
            return false;
        }
        for open in &self.loops {
            if !has_none(self.nodes, open.from, open.to, asked)
                || !has_none(self.nodes, open.to, open.stop, asked)
            {
                return false;
            }
        }
        true
    }

    fn visit(&mut self) -> Option<Result<Step, WalkFault>>
        requires goes { self.old.state ≡ Going }
        requires more { self.old.place < self.old.stop }
        ensures on { IfNone result ((left self.new ≡ left self.old) × (waits self.new ≡ false)
            × (steps_left self.new < steps_left self.old)) }
        ensures answer { IfSome result (λ a. Goes (left self.old) a self.new) }
    {
        if self.items >= MOST_ITEMS {
            self.refuse(WalkFault::TooLarge);
            return Some(Err(WalkFault::TooLarge));
        }
        match self.nodes[self.place] {
            Node::Element(fxy, element) => {
                let spec = self.operators.effective(&element, fxy).ok();
                Some(self.field(fxy, spec))
            }
            Node::Untouched(fxy, element) => Some(self.field(fxy, untouched(&element))),
            Node::Operator(fxy) => {
                self.items += 1;
                self.place += 1;
                self.operators.put(fxy);
                None
            }
            Node::Repeated(times, len) => {
                let from = self.place + 1;
                self.items += 1;
                self.place = body_end(from, self.stop, len);
                self.enter(times, from);
                None
            }
            Node::Delayed(fxy, element, len) => Some(self.begin_count(fxy, &element, len)),
        }
    }

    /// Ends a turn: begins the next one, or leaves the replication.
    fn turn(&mut self) -> Option<Result<Step, WalkFault>>
        requires goes { self.old.state ≡ Going }
        requires passed { self.old.stop ≤ self.old.place }
        ensures on { IfNone result ((left self.new ≡ left self.old) × (waits self.new ≡ false)
            × (steps_left self.new < steps_left self.old)) }
        ensures answer { IfSome result (λ a. Goes (left self.old) a self.new) }
    {
        let Some(turn) = self.loops.pop() else {
            return Some(Ok(Step::End));
        };
        if turn.turns == 0 {
            self.place = turn.to;
            self.stop = turn.stop;
            return None;
        }
        if self.items >= MOST_ITEMS {
            self.refuse(WalkFault::TooLarge);
            return Some(Err(WalkFault::TooLarge));
        }
        let next = Open {
            turns: turn.turns - 1,
            from: turn.from,
            to: turn.to,
            stop: turn.stop,
        };
        self.loops.push(next).unwrap();
        self.items += 1;
        self.place = turn.from;
        self.stop = turn.to;
        None
    }

    #[tactic(auto, unfolding(crate::specs::Walks::left, crate::specs::Walks::waits, crate::specs::Walks::items_met))]
    fn refuse(&mut self, fault: WalkFault)
        requires goes { self.old.state ≡ Going }
        ensures course { left self.new ≡ stops self.old.items fault }
        ensures goes { waits self.new ≡ false }
        ensures items { items_met self.new ≡ self.old.items }
    {
        self.state = State::Stopped(fault);
    }

    #[tactic(auto, unfolding(crate::specs::Walks::left, crate::specs::Walks::waits, crate::specs::Walks::items_met, crate::specs::Walks::steps_left))]
    fn field(&mut self, fxy: Fxy, spec: Option<Spec>) -> Result<Step, WalkFault>
        requires goes { self.old.state ≡ Going }
        requires more { self.old.place < self.old.stop }
        requires fits { self.old.items < most_items }
        ensures { Goes (asks_if spec (self.old.items + 1) fxy
            (λ n. going self.old.nodes.now (self.old.place + 1) self.old.stop
            self.old.loops.items self.old.operators (self.old.items + 1))) result self.new }
    {
        self.items += 1;
        let Some(spec) = spec else {
            self.refuse(WalkFault::EffectiveRange(fxy));
            return Err(WalkFault::EffectiveRange(fxy));
        };
        self.place += 1;
        match spec.kind {
            Kind::Count => {
                self.state = State::Waiting(PendingCount {
                    fxy,
                    spec,
                    body: None,
                });
                Ok(Step::Count(fxy, spec))
            }
            _ => Ok(Step::Field(fxy, spec)),
        }
    }

    #[tactic(auto, unfolding(crate::specs::Walks::left, crate::specs::Walks::waits, crate::specs::Walks::items_met, crate::specs::Walks::steps_left))]
    fn begin_count(&mut self, fxy: Fxy, element: &Element, len: u64) -> Result<Step, WalkFault>
        requires goes { self.old.state ≡ Going }
        requires more { self.old.place < self.old.stop }
        requires fits { self.old.items < most_items }
        requires room { length self.old.loops.items + 1 ≤ in_front self.old.nodes.now
            (self.old.place + 1) }
        ensures { let from = self.old.place + 1 in let to = from + min len (self.old.stop - from) in
            Goes (asks (self.old.items + 1) fxy (factor_spec element.now)
            (λ n. turns_then self.old.nodes.now n from to self.old.stop
            (behind_all self.old.nodes.now self.old.loops.items) self.old.operators
            (self.old.items + 1))) result self.new }
    {
        let from = self.place + 1;
        self.items += 1;
        self.place = body_end(from, self.stop, len);
        let spec = Spec {
            kind: Kind::Count,
            scale: 0,
            reference: 0,
            width: element.width,
        };
        self.state = State::Waiting(PendingCount {
            fxy,
            spec,
            body: Some(from),
        });
        Ok(Step::Count(fxy, spec))
    }

    /// Enters a replication; its body ends at the walk's place.
    #[tactic(auto, unfolding(crate::specs::Walks::left, crate::specs::Walks::waits, crate::specs::Walks::items_met, crate::specs::Walks::steps_left))]
    fn enter(&mut self, turns: u64, from: usize)
        requires room { length self.old.loops.items + 1 ≤ in_front self.old.nodes.now from }
        requires order { from ≤ self.old.place }
        ensures course { left self.new ≡ turns_then self.old.nodes.now turns from self.old.place
            self.old.stop
            (behind_all self.old.nodes.now self.old.loops.items) self.old.operators
            self.old.items }
        ensures goes { waits self.new ≡ false }
        ensures items { items_met self.new ≡ self.old.items }
        ensures steps { steps_left self.new ≡ steps_left self.old + 1 }
    {
        let turn = Open {
            turns,
            from,
            to: self.place,
            stop: self.stop,
        };
        self.loops.push(turn).unwrap();
        self.stop = self.place;
        self.state = State::Going;
    }
}

/// Returns the end of a body, at most the end of its list.
fn body_end(from: usize, stop: usize, len: u64) -> usize
    requires { from ≤ stop }
    ensures { result ≡ from + min len (stop - from) }
{
    let room = stop - from;
    if len < room as u64 {
        from + len as usize
    } else {
        stop
    }
}

/// Returns whether no node from one index to another is a chosen field. False if there are no such
/// nodes.
fn has_none<A: Asks>(nodes: &[Node], from: usize, to: usize, asked: &A) -> bool
    ensures { OnTrue result (none_between (A.is_asked asked.now) nodes.now from to ≡ true) }
{
    if from > to || to > nodes.len() {
        return false;
    }
    let among = &nodes[from..to];
    among.iter().all(|node| match node {
        Node::Element(fxy, _) | Node::Untouched(fxy, _) | Node::Delayed(fxy, _, _) => {
            !asked.asks(*fxy)
        }
        Node::Operator(_) | Node::Repeated(_, _) => true,
    })
}
