ghost use Rattle.std.specs.Prelude.{◌≡◌, ◌++◌, ◌∷◌, [], map, IfOk, OnOk, OnErr};
ghost use Rattle.std.specs.List.Sorted.{IsStrictlySortedBy};
ghost use Rattle.std.specs.Option.{option_map, option_to_list};
ghost use Rattle.bufr_entries.specs.Entries.{slot_cmp, kept};
ghost use Rattle.bufr_entries.specs.Pages.{flat, marked};

use crate::entry_octets::EntryOctets;
use crate::kept_octets::{KeptOctets, count_of};
use crate::key::Key;
use crate::packed_slot::PackedSlot;
use crate::page::Page;
use crate::pages_left::PagesLeft;
use crate::settling::settle;
use crate::waiting::Waiting;
use bufr_base::{Items, OutOfMemory};
use std::alloc::Global;
use std::marker::Model;

/// A builder that gathers entries, without look-ups, and keeps the one of greatest rank of each
/// slot. It sorts in batches: while n entries are sorted, at most 64 + 2n wait, with little more
/// than 32 MiB + 64n octets.
#[derive(Drop)]
pub struct ShelfBuilder {
    alloc: Global,
    settled: Vec<Page>,
    // The pages after the settled ones, if memory ran out while sorting.
    left: PagesLeft,
    waiting: Waiting,
    count: usize,
}

impl Model for ShelfBuilder {
    ghost use Rattle.std.specs.Prelude.{◌+◌, ◌*◌, ◌≤◌, ◌++◌, List, length};
    ghost use Rattle.std.specs.List.Sorted.{IsStrictlySortedBy};
    ghost use Rattle.bufr_entries.specs.Entries.{slot_cmp, kept};
    ghost use Rattle.bufr_entries.specs.Pages.{flat};
    ghost use Rattle.bufr_entries.specs.declared.entry.Entry.{Entry as AnEntry};

    ghost Value = { List AnEntry };

    ghost view = { λ a. kept (flat a.settled.items ++ (a.left ++ a.waiting)) };

    ghost invariant = { λ a. IsStrictlySortedBy slot_cmp (flat a.settled.items ++ a.left)
        × (length a.waiting ≤ 64 + 2 * a.count)
        × (a.count ≤ length (kept (flat a.settled.items ++ (a.left ++ a.waiting)))) };
}

impl ShelfBuilder {
    /// Makes an empty builder.
    pub fn new(alloc: Global) -> ShelfBuilder
        ensures { result ≡ [] }
    {
        ShelfBuilder {
            alloc,
            settled: Vec::new(alloc),
            left: PagesLeft {
                page: Page::new(alloc),
                pages: Vec::new(alloc),
            },
            waiting: Waiting {
                entries: Vec::new(alloc),
                octets: Vec::new(alloc),
                ahead: Vec::new(alloc),
            },
            count: 0,
        }
    }

    /// Adds an entry: a key or none, an update number and octets.
    pub fn put(&mut self, key: Option<Key>, update: u8, bytes: Items<u8>) -> Result<(), OutOfMemory>
        ensures ok { OnOk result (kept self.new ≡ kept (kept self.old
            ++ record { key = key; update = update; bytes = bytes } ∷ [])) }
        ensures err { OnErr result (kept self.new ≡ kept self.old) }
    {
        self.put_octets_of(key, update, &bytes)
    }

    /// Adds an entry that writes its octets in place. Adds nothing if it has none.
    pub fn put_octets_of<O: EntryOctets>(
        &mut self,
        key: Option<Key>,
        update: u8,
        entry: &O,
    ) -> Result<(), OutOfMemory>
        ensures ok { OnOk result (kept self.new ≡ kept (kept self.old ++ option_to_list
            (option_map (λ bytes. record { key = key; update = update; bytes = bytes })
            (O.octets entry.now)))) }
        ensures err { OnErr result (kept self.new ≡ kept self.old) }
    {
        let mark = PackedSlot::new(self.alloc, key, update)?;
        self.put_marked(mark, entry)
    }

    /// Adds an entry with this mark, as `put_octets_of` does.
    pub fn put_marked<O: EntryOctets>(
        &mut self,
        mark: PackedSlot,
        entry: &O,
    ) -> Result<(), OutOfMemory>
        ensures ok { OnOk result (kept self.new ≡ kept (kept self.old ++ option_to_list
            (option_map (marked mark) (O.octets entry.now)))) }
        ensures err { OnErr result (kept self.new ≡ kept self.old) }
    {
        if self.waiting.are_many(self.count) {
            settle(
                self.alloc,
                &mut self.settled,
                &mut self.left,
                &mut self.waiting,
            )?;
            self.count = count_of(&self.settled)?;
        }
        self.waiting.push(self.alloc, mark, entry)?;
        Ok(())
    }

    /// Returns the kept entries, in order.
    pub fn into_left(self) -> Result<PagesLeft, OutOfMemory>
        ensures { IfOk result (λ left. left ≡ kept self) }
    {
        let ShelfBuilder {
            alloc,
            mut settled,
            mut left,
            mut waiting,
            ..
        } = self;
        take_all(alloc, &mut settled, &mut left, &mut waiting)?;
        Ok(left)
    }

    /// Returns the octets of the kept entries, in order of slots.
    pub fn into_octets(self) -> Result<KeptOctets, OutOfMemory>
        ensures { IfOk result (λ left. left ≡ map (λ e. e.bytes) (kept self)) }
    {
        let ShelfBuilder {
            alloc,
            settled: mut pages,
            mut left,
            mut waiting,
            ..
        } = self;
        settle(alloc, &mut pages, &mut left, &mut waiting)?;
        let count = count_of(&pages)?;
        Ok(KeptOctets { pages, count })
    }
}

/// Moves all entries into `left`, in order. If memory runs out, it moves some.
fn take_all(
    alloc: Global,
    settled: &mut Vec<Page>,
    left: &mut PagesLeft,
    waiting: &mut Waiting,
) -> Result<(), OutOfMemory>
    requires { IsStrictlySortedBy slot_cmp (flat settled.old.items ++ left.old) }
    ensures { OnOk result (left.new ≡ kept (flat settled.old.items ++ (left.old ++ waiting.old))) }
{
    settle(alloc, settled, left, waiting)?;
    left.take_back(settled)?;
    Ok(())
}
