//! Keeping an archive in a file.
ghost use Rattle.std.specs.Prelude.{◌≡◌, IfOk, IfErr};
ghost use Rattle.bufr_archive.specs.Texts.{text};
ghost use Rattle.bufr_usage.specs.Callers.{HasTakenIn, IsNotTakenIn};

use bufr_archive::{AddFault, Archive, NotAnArchive, Shelf, SortedShelf};
use bufr_bits::IntoWrite;
use bufr_message::{Failure, OutOfMemory, Refused, Tables};
use std::alloc::Global;

/// A fault of a message that did not go into a file's archive.
#[derive(Debug, Drop)]
pub enum KeepFault {
    /// The file is no archive.
    NotAnArchive(NotAnArchive),
    /// The octets spell no message.
    Refused(Refused),
    /// Memory ran out.
    OutOfMemory,
}

/// Adds a message to the archive of a file, and returns the file's new octets. An empty file is an
/// empty archive.
pub fn with_message(
    alloc: Global,
    tables: &Tables,
    file: &[u8],
    message: &[u8],
) -> Result<Vec<u8>, KeepFault>
    ensures taken_in { IfOk result (λ v. HasTakenIn tables.now file.now message.now v.items) }
    ensures refused { IfErr result (IsNotTakenIn tables.now file.now message.now) }
{
    let mut archive: Archive<SortedShelf> = match Archive::read(alloc, tables, file) {
        Ok(archive) => archive,
        Err(Failure::Fault(why)) => return Err(KeepFault::NotAnArchive(why)),
        Err(Failure::OutOfMemory) => return Err(KeepFault::OutOfMemory),
    };
    match archive.add_message(message) {
        Ok(_) => {}
        Err(AddFault::Refused(why)) => return Err(KeepFault::Refused(why)),
        Err(AddFault::OutOfMemory { .. }) => return Err(KeepFault::OutOfMemory),
    }
    match text_of(alloc, &archive) {
        Ok(text) => Ok(text),
        Err(_) => Err(KeepFault::OutOfMemory),
    }
}

/// Writes an archive's text to a vector.
fn text_of<S: Shelf>(alloc: Global, archive: &Archive<'_, S>) -> Result<Vec<u8>, OutOfMemory>
    ensures { IfOk result (λ octets. octets.items ≡ text archive.now.entries) }
{
    let mut octets = IntoWrite::new(Vec::new(alloc));
    match archive.write(&mut octets) {
        Ok(()) => Ok(octets.into_inner()),
        Err(_) => Err(OutOfMemory),
    }
}
