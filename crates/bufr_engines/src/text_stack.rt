//! Archives as a stack of texts. Each text has at least 4/3 as many reports as the text above it.
//! So `merge` moves each report a few times, however many archives come.

ghost use Rattle.std.specs.Prelude.{◌≡◌, ◌++◌, IfOk, OnOk};
ghost use Rattle.std.specs.Option.{option_to_list};
ghost use Rattle.bufr_gather.specs.Archives.{merged};
ghost use Rattle.bufr_engines.specs.Stacks.{together, AreUnderTables};

use bufr_base::OutOfMemory;
use bufr_gather::ArchiveText;
use bufr_tables::Tables;
use std::alloc::Global;

/// Takes the top one of `texts`, if it has at most a third more reports than `top`.
fn pop_alike<'t>(texts: &mut Vec<ArchiveText<'t>>, top: &ArchiveText) -> Option<ArchiveText<'t>>
    ensures { texts.old.items ≡ texts.new.items ++ option_to_list result }
{
    let below = texts.last()?;
    if below.len() / 4 * 3 > top.len() {
        return None;
    }
    texts.pop()
}

/// Merges the top text with those below it that are not much larger. If memory runs out, some texts
/// may be lost.
pub(crate) fn settle<'t>(
    alloc: Global,
    tables: &Tables,
    texts: &mut Vec<ArchiveText<'t>>,
) -> Result<(), OutOfMemory>
    requires { AreUnderTables tables.now texts.old.items }
    ensures under { AreUnderTables tables.now texts.new.items }
    ensures ok { OnOk result
        (together tables.now texts.new.items ≡ together tables.now texts.old.items) }
{
    let Some(mut top) = texts.pop() else {
        return Ok(());
    };
    while let Some(mut below) = pop_alike(texts, &top) {
        below.merge(alloc, top)?;
        top = below;
    }
    texts.push(top)?;
    Ok(())
}

/// Merges all texts but the lowest, from the top down, and returns the lowest and the merged one. A
/// missing text counts as one without reports.
pub(crate) fn merge_upper<'t>(
    alloc: Global,
    tables: &'t Tables,
    mut texts: Vec<ArchiveText<'t>>,
) -> Result<(ArchiveText<'t>, ArchiveText<'t>), OutOfMemory>
    requires { AreUnderTables tables.now texts.items }
    ensures same { IfOk result (λ two. two.0.tables ≡ two.1.tables) }
    ensures all { IfOk result (λ two.
        merged two.0 two.1 ≡ together tables.now texts.entry.items) }
{
    let mut lowest = ArchiveText::new(alloc, tables);
    let mut upper = ArchiveText::new(alloc, tables);
    while let Some(below) = texts.pop() {
        lowest.merge(alloc, upper)?;
        upper = lowest;
        lowest = below;
    }
    Ok((lowest, upper))
}
