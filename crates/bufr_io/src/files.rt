ghost use Rattle.std.specs.Prelude.{map, IfOk, IfSome};
ghost use Rattle.bufr_io.specs.Engines.{IsFresh};
ghost use Rattle.bufr_io.specs.Readers.{AreFresh};

use crate::fault::ToolFault;
use crate::lazy_input::LazyInput;
use bufr_bits::Source;
use std::alloc::Global;
use std::rt::Files;

/// A reason why the inputs of a line are not there.
#[derive(Debug, Drop)]
pub enum Unopened<'a> {
    /// The file of this path cannot open.
    Path(&'a str),
    /// Memory ran out.
    OutOfMemory,
}

/// Makes the inputs of some paths, and opens the first.
pub fn inputs_of<'a, R: Files>(
    rt: &'a R,
    alloc: Global,
    paths: &[&'a str],
) -> Result<Vec<LazyInput<'a, R>>, Unopened<'a>>
    ensures { IfOk result (λ inputs. AreFresh
        (map ⟦<LazyInput<'a, R> as Source>⟧.reading inputs.items)) }
{
    files_of(rt, alloc, paths, 1)
}

/// Makes the files of some paths, and opens the first `at_once`.
pub fn files_of<'a, R: Files>(
    rt: &'a R,
    alloc: Global,
    paths: &[&'a str],
    at_once: usize,
) -> Result<Vec<LazyInput<'a, R>>, Unopened<'a>>
    ensures { IfOk result (λ files. AreFresh
        (map ⟦<LazyInput<'a, R> as Source>⟧.reading files.items)) }
{
    let mut files = Vec::new(alloc);
    for path in paths {
        let Some(file) = file_of(rt, path, files.len() < at_once) else {
            return Err(Unopened::Path(path));
        };
        let Ok(()) = files.push(file) else {
            return Err(Unopened::OutOfMemory);
        };
    }
    Ok(files)
}

/// Makes the input of a path, and opens it if `at_once`. Returns `None` if it cannot open.
pub fn file_of<'a, R: Files>(rt: &'a R, path: &'a str, at_once: bool) -> Option<LazyInput<'a, R>>
    ensures { IfSome result (λ file. IsFresh (⟦<LazyInput<'a, R> as Source>⟧.reading file)) }
{
    let mut file = LazyInput::new(rt, path);
    if at_once {
        file.open();
    }
    if file.is_unopened() {
        return None;
    }
    Some(file)
}

/// Returns the path of the input that could not open, if a failed read is the fault.
pub fn unopened_path<'a, R: Files>(
    inputs: &[LazyInput<'a, R>],
    fault: &ToolFault,
) -> Option<&'a str> {
    if !matches!(fault, ToolFault::ReadFailed(_)) {
        return None;
    }
    for input in inputs {
        if input.is_unopened() {
            return Some(input.path());
        }
    }
    None
}
