ghost use Rattle.std.specs.Prelude.{◌≡◌, ◌++◌, ◌∷◌, [], IfOk, OnOk};
ghost use Rattle.bufr_entries.specs.Entries.{kept};
ghost use Rattle.bufr_entries.specs.Pages.{seen};

use crate::shelf::Shelf;
use crate::sorted_shelf::SortedShelf;
use bufr_base::OutOfMemory;
use bufr_entries::{Entry, LentEntry, PagesLeft, ShelfBuilder};
use std::alloc::Global;

impl SortedShelf {
    /// Makes a shelf of the entries of a builder.
    pub fn of_gathered(alloc: Global, builder: ShelfBuilder) -> Result<SortedShelf, OutOfMemory>
        ensures { IfOk result (λ shelf. kept shelf ≡ kept builder) }
    {
        let mut left = builder.into_left()?;
        let mut shelf = SortedShelf::new(alloc);
        put_all(alloc, &mut shelf, &mut left)?;
        Ok(shelf)
    }
}

/// Puts all entries of pages on a shelf. If memory is refused some are there.
fn put_all(alloc: Global, shelf: &mut SortedShelf, left: &mut PagesLeft) -> Result<(), OutOfMemory>
    ensures { OnOk result (kept shelf.new ≡ kept (kept shelf.old ++ left.old)) }
{
    while let Some(first) = left.first() {
        put_copy(alloc, shelf, first)?;
        left.drop_first();
    }
    Ok(())
}

fn put_copy(alloc: Global, shelf: &mut SortedShelf, look: LentEntry) -> Result<(), OutOfMemory>
    ensures { OnOk result (kept shelf.new ≡ kept (kept shelf.old ++ seen look.entry ∷ [])) }
{
    let Entry { key, update, bytes } = look.copied(alloc)?;
    shelf.put(key, update, bytes)?;
    Ok(())
}
