//! What a command line selects, and its faults.

use crate::command_line::{CommandLine, read_version};
use bufr_base::OutOfMemory;
use bufr_select_rows::{Column, ColumnsFault, columns_of};
use bufr_tables::Fxy;
use std::alloc::Global;
use thiserror::Error;

/// A selection of a command line: the descriptor `each` opens spans, and each pair of tables has
/// its greatest version.
#[derive(Drop)]
pub(crate) struct LineSelection {
    pub(crate) columns: Vec<Column>,
    pub(crate) each: Option<Fxy>,
    pub(crate) versions: Vec<Option<u8>>,
}

/// A fault of a command line.
#[derive(Clone, Copy, Debug, Drop, PartialEq, Eq, Error)]
pub(crate) enum LineFault<'a> {
    #[error("{0}")]
    Columns(ColumnsFault<'a>),
    /// The text of `-e` is no descriptor.
    #[error("no descriptor {0}")]
    NoDescriptor(&'a str),
    /// The text of `-v` is no version, 0 to 255.
    #[error("no version {0}")]
    NoVersion(&'a str),
    /// The tables do not come in pairs, each with `-v` if there are several.
    #[error("each pair of tables is -v N -b TABLE_B -d TABLE_D")]
    Unpaired,
    #[error("out of memory")]
    OutOfMemory,
}

impl<'a> From<OutOfMemory> for LineFault<'a> {
    fn from(_e: OutOfMemory) -> LineFault<'a> {
        LineFault::OutOfMemory
    }
}

/// Returns what a command line selects.
pub(crate) fn selection_of<'a>(
    alloc: Global,
    line: &CommandLine<'a>,
) -> Result<LineSelection, LineFault<'a>> {
    let columns = match columns_of(alloc, line.columns) {
        Ok(columns) => columns,
        Err(fault) => return Err(LineFault::Columns(fault)),
    };
    let each = each_of(line.each)?;
    let versions = versions_of(alloc, line)?;
    Ok(LineSelection {
        columns,
        each,
        versions,
    })
}

/// Reads the text of `-e`.
fn each_of(text: Option<&str>) -> Result<Option<Fxy>, LineFault<'_>> {
    let Some(text) = text else {
        return Ok(None);
    };
    match Fxy::from_text(text.as_bytes()) {
        Some(fxy) => Ok(Some(fxy)),
        None => Err(LineFault::NoDescriptor(text)),
    }
}

/// Reads the greatest version of each pair.
fn versions_of<'a>(
    alloc: Global,
    line: &CommandLine<'a>,
) -> Result<Vec<Option<u8>>, LineFault<'a>> {
    let mut versions = Vec::new(alloc);
    if line.d.len() != line.b.len() {
        return Err(LineFault::Unpaired);
    }
    if line.versions.is_empty() && line.b.len() == 1 {
        push_version(&mut versions, None)?;
        return Ok(versions);
    }
    if line.versions.len() != line.b.len() {
        return Err(LineFault::Unpaired);
    }
    for text in &line.versions {
        let Some(version) = read_version(text) else {
            return Err(LineFault::NoVersion(text));
        };
        push_version(&mut versions, Some(version))?;
    }
    Ok(versions)
}

fn push_version(versions: &mut Vec<Option<u8>>, version: Option<u8>) -> Result<(), OutOfMemory> {
    versions.push(version)?;
    Ok(())
}
