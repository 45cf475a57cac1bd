ghost use Rattle.std.specs.Prelude.{◌≡◌, ◌++◌, ◌<◌, [], drop, length, reverse, IfSome, OnOk};
ghost use Rattle.std.specs.Option.{option_map, option_to_list};
ghost use Rattle.bufr_entries.specs.Keeping.{first_of};
ghost use Rattle.bufr_entries.specs.Pages.{flat, mark_of, seen, EndsBefore};

use crate::lent_entry::LentEntry;
use crate::packed_slot::PackedSlot;
use crate::page::Page;
use bufr_base::OutOfMemory;
use std::alloc::Global;
use std::marker::Model;
use std::mem;

/// A queue of entries in pages, in order. Contracts see the entries left.
#[derive(Drop)]
pub struct PagesLeft {
    pub(crate) page: Page,
    // The pages, in reverse.
    pub(crate) pages: Vec<Page>,
}

impl Model for PagesLeft {
    ghost use Rattle.std.specs.Prelude.{◌≡◌, ◌++◌, [], List, reverse};
    ghost use Rattle.bufr_entries.specs.declared.entry.Entry.{Entry as AnEntry};
    ghost use Rattle.bufr_entries.specs.Pages.{flat};

    ghost Value = { List AnEntry };

    ghost view = { λ a. a.page ++ flat (reverse a.pages.items) };

    ghost invariant = { λ a. (a.page ≡ []) → (a.pages.items ≡ []) };
}

/// Moves on to the next page with an entry, if the current one has none.
#[inline(always)]
fn turn(page: &mut Page, pages: &mut Vec<Page>)
    ensures all { page.new ++ flat (reverse pages.new.items)
        ≡ page.old ++ flat (reverse pages.old.items) }
    ensures turned { (page.new ≡ []) → (pages.new.items ≡ []) }
{
    while page.first().is_none() {
        let Some(next) = pages.pop() else {
            return;
        };
        *page = next;
    }
}

impl PagesLeft {
    /// Looks at the first entry.
    pub fn first(&self) -> Option<LentEntry>
        ensures { option_map seen result ≡ first_of self.now }
    {
        self.page.first()
    }

    pub(crate) fn take_first(&mut self) -> Option<PackedSlot>
        ensures mark { result ≡ option_map mark_of (first_of self.old) }
        ensures rest { self.new ≡ drop 1 self.old }
    {
        let mark = self.page.take_first();
        turn(&mut self.page, &mut self.pages);
        mark
    }

    pub fn drop_first(&mut self)
        ensures { self.new ≡ drop 1 self.old }
    {
        let _mark = self.take_first();
    }

    /// Takes the first page whole, if it is untouched and ends before `next`.
    pub(crate) fn take_page(&mut self, alloc: Global, next: Option<LentEntry>) -> Option<Page>
        ensures all { self.old ≡ flat (option_to_list result) ++ self.new }
        ensures before { IfSome result (λ page. EndsBefore page (option_map seen next.entry)) }
    {
        if !self.page.is_whole_before(next) {
            return None;
        }
        let page = mem::replace(&mut self.page, Page::new(alloc));
        turn(&mut self.page, &mut self.pages);
        Some(page)
    }

    /// Moves the settled pages to the front of the queue, last page first. If memory runs out, it
    /// moves some.
    pub(crate) fn take_back(&mut self, settled: &mut Vec<Page>) -> Result<(), OutOfMemory>
        ensures all { flat settled.new.items ++ self.new ≡ flat settled.old.items ++ self.old }
        ensures done { OnOk result (settled.new.items ≡ []) }
    {
        loop {
            self.pages.reserve(1)?;
            let Some(page) = settled.pop() else {
                return Ok(());
            };
            if page.first().is_some() {
                self.pages.push_reserved(mem::replace(&mut self.page, page));
            }
        }
    }
}
