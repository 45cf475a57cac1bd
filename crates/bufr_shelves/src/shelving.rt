ghost use Rattle.std.specs.Prelude.{◌≡◌, List, IfOk};
ghost use Rattle.bufr_entries.specs.Keeping.{SameMembers};
ghost use Rattle.bufr_entries.specs.Entries.{kept};
ghost use Rattle.bufr_entries.specs.declared.entry.Entry.{Entry as AnEntry};

use crate::shelf::Shelf;
use bufr_base::OutOfMemory;
use bufr_entries::Entry;
use std::alloc::Global;

/// Puts entries on a new shelf, one by one.
pub fn shelve<S: Shelf>(alloc: Global, entries: Vec<Entry>) -> Result<S, OutOfMemory>
    ensures kept { IfOk result (λ shelf. S.entries shelf ≡ kept entries.items) }
    // Any order of the entries, with any repeats, makes an equal shelf.
    ensures agrees { IfOk result (λ shelf. (others : List AnEntry)
        → SameMembers entries.items others → S.entries shelf ≡ kept others) }
{
    let mut shelf = S::new(alloc);
    for Entry { key, update, bytes } in entries {
        shelf.put(key, update, bytes)?;
    }
    Ok(shelf)
}
