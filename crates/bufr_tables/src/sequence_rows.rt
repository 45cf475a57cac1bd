//! Collects the rows of Table D.

ghost use Rattle.std.specs.Prelude.{◌≡◌, IfOk, OnOk, map};
ghost use Rattle.std.specs.Ordering.{nat_cmp};
ghost use Rattle.std.specs.BTreeMap.{insert_entry};
ghost use Rattle.csv.specs.Records.{fields_of};
ghost use Rattle.bufr_base.specs.Answers.{Gives};
ghost use Rattle.bufr_tables.specs.Entries.{Rising};
ghost use Rattle.bufr_tables.specs.Rows.{member_row, with_member, begins, no_sequences};
ghost use Rattle.bufr_tables.specs.Rows.{all_sequences};
ghost use Rattle.bufr_tables.specs.TableFiles.{after_record};

use crate::columns::row_cells;
use crate::fxy::Fxy;
use crate::rows::member_row;
use crate::table_faults::TableFault;
use bufr_base::{Failure, Items, OutOfMemory};
use csv::ByteRecord;
use std::alloc::Global;
use std::collections::BTreeMap;
use std::marker::Model;

/// A Table D in the making: the finished sequences, and the one being read.
#[derive(Drop)]
pub(crate) struct SequenceRows {
    ended: BTreeMap<Fxy, Items<Fxy>>,
    open_one: Option<(Fxy, Vec<Fxy>)>,
}

impl Model for SequenceRows {
    ghost use Rattle.std.specs.Prelude.{option_map, ℕ, List};
    ghost use Rattle.bufr_tables.specs.Entries.{Rising};
    ghost use Rattle.bufr_tables.specs.Rows.{Sequences};

    ghost Value = { Sequences };

    ghost view = { λ a. record {
      ended = a.ended.entries;
      open_one = option_map {U = ℕ × List ℕ} (λ o. (o.0, o.1.items)) a.open_one;
    } };

    ghost invariant = { λ a. Rising a.ended.entries };
}

impl SequenceRows {
    pub(crate) fn new(alloc: Global) -> SequenceRows
        ensures { result ≡ no_sequences }
    {
        SequenceRows {
            ended: BTreeMap::new(alloc),
            open_one: None,
        }
    }

    // Starts a sequence, unless it was finished before.
    fn begin(
        &mut self,
        alloc: Global,
        sequence: Fxy,
        member: Fxy,
    ) -> Result<(), Failure<TableFault>>
        ensures { Gives (λ _. self.new) result (begins self.old.ended sequence member) }
    {
        if self.ended.contains_key(&sequence) {
            return Err(Failure::Fault(TableFault::SplitSequence(sequence)));
        }
        let mut members = Vec::new(alloc);
        members.push(member)?;
        self.open_one = Some((sequence, members));
        Ok(())
    }

    fn add(&mut self, alloc: Global, sequence: Fxy, member: Fxy) -> Result<(), Failure<TableFault>>
        ensures { Gives (λ _. self.new) result (with_member self.old (sequence, member)) }
    {
        let Some((open, mut list)) = self.open_one.take() else {
            return self.begin(alloc, sequence, member);
        };
        if open == sequence {
            list.push(member)?;
            self.open_one = Some((open, list));
            return Ok(());
        }
        end(&mut self.ended, open, list)?;
        self.begin(alloc, sequence, member)
    }

    /// Adds the row of a record; a skipped one adds nothing.
    pub(crate) fn add_record(
        &mut self,
        alloc: Global,
        names: &[&[u8]],
        places: &[usize],
        number: u64,
        row: &ByteRecord,
    ) -> Result<(), Failure<TableFault>>
        ensures { Gives (λ _. self.new) result (after_record member_row with_member
            (map (λ s. s.now) names.now) places.now number (fields_of row.now) self.old) }
    {
        let Some(cells) = row_cells(alloc, names, places, number, row)? else {
            return Ok(());
        };
        match member_row(&cells) {
            Some((sequence, member)) => self.add(alloc, sequence, member),
            None => Err(Failure::Fault(TableFault::BadRow(number))),
        }
    }

    pub(crate) fn finish(self) -> Result<BTreeMap<Fxy, Items<Fxy>>, OutOfMemory>
        ensures all { IfOk result (λ m. m.entries ≡ all_sequences self) }
        ensures rising { IfOk result (λ m. Rising m.entries) }
    {
        let SequenceRows {
            mut ended,
            open_one,
        } = self;
        let Some((open, list)) = open_one else {
            return Ok(ended);
        };
        end(&mut ended, open, list)?;
        Ok(ended)
    }
}

// Finishes a sequence.
fn end(
    ended: &mut BTreeMap<Fxy, Items<Fxy>>,
    sequence: Fxy,
    list: Vec<Fxy>,
) -> Result<(), OutOfMemory>
    requires { Rising ended.old.entries }
    ensures ok { OnOk result (ended.new.entries
        ≡ insert_entry nat_cmp ended.old.entries sequence list.items) }
    ensures rising { Rising ended.new.entries }
{
    ended.insert(sequence, Items::from_vec(list))?;
    Ok(())
}
