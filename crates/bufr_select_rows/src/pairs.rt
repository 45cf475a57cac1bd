//! Pairs of tables, each for the messages of some versions.

ghost use Rattle.std.specs.Prelude.{◌≡◌, Ok, Some};
ghost use Rattle.bufr_base.specs.Answers.{Gives};
ghost use Rattle.bufr_sections.specs.Sections.{envelope_of};
ghost use Rattle.bufr_message.specs.Messages.{message_of};
ghost use Rattle.bufr_select_rows.specs.Pairs.{message_said, message_under, or_refused, reads_version};
ghost use Rattle.bufr_select_rows.specs.Pairs.{message_of_version, unread_reason, version_said};

use bufr_base::Failure;
use bufr_message::{MessageReader, Refused, View};
use bufr_sections::read_sections;
use bufr_tables::Tables;
use std::alloc::Global;
use std::error::Error;
use std::fmt;

/// A pair of tables.
#[derive(Drop)]
pub struct VersionTables<'t> {
    /// The greatest table version that it reads; none reads all.
    pub greatest: Option<u8>,
    pub reader: MessageReader<'t>,
}

/// A reason why a frame has no rows.
#[derive(Clone, Copy, Debug, Drop, PartialEq, Eq)]
pub enum Unread {
    /// The octets spell no message.
    Refused(Refused),
    /// No pair of tables reads this version.
    NoTables(u8),
}

impl fmt::Display for Unread {
    ghost output = { λ why. Some (unread_reason why) };

    fn fmt<W: fmt::Write>(&self, f: &mut fmt::Formatter<W>) -> fmt::Result {
        match self {
            Unread::Refused(why) => write!(f, "{why}"),
            Unread::NoTables(version) => write!(f, "no tables of version {version}"),
        }
    }
}

impl Error for Unread {}

impl<'t> VersionTables<'t> {
    /// Makes a pair for versions up to the greatest.
    pub fn new(alloc: Global, greatest: Option<u8>, tables: &'t Tables) -> VersionTables<'t>
        ensures greatest { result.greatest ≡ greatest }
        ensures tables { result.reader ≡ tables.now }
    {
        VersionTables::for_elements(alloc, greatest, tables, &[])
    }

    /// Makes a pair that finds the places of the fields of some descriptors, given by their 16 bits.
    pub fn for_elements(
        alloc: Global,
        greatest: Option<u8>,
        tables: &'t Tables,
        asked: &'t [u16],
    ) -> VersionTables<'t>
        ensures greatest { result.greatest ≡ greatest }
        ensures tables { result.reader ≡ tables.now }
    {
        VersionTables {
            greatest,
            reader: MessageReader::for_elements(alloc, tables, asked),
        }
    }

    /// Returns whether the pair reads a version.
    fn reads(&self, version: u8) -> bool
        ensures { result ≡ reads_version version self.now }
    {
        match self.greatest {
            Some(greatest) => version <= greatest,
            None => true,
        }
    }

    fn view<'a>(&mut self, alloc: Global, octets: &'a [u8]) -> Result<View<'a>, Failure<Unread>>
        ensures same { self.new ≡ self.old }
        ensures exact { Gives (λ d. d) result
            (or_refused (message_of self.old.reader octets.now)) }
    {
        match self.reader.read(alloc, octets) {
            Ok(found) => Ok(found),
            Err(Failure::Fault(why)) => Err(Failure::Fault(Unread::Refused(why))),
            Err(Failure::OutOfMemory) => Err(Failure::OutOfMemory),
        }
    }
}

/// Views the message that octets spell under the first pair that reads its version.
#[tactic(auto, unfolding(crate::specs::Pairs::message_under))]
pub fn view_under<'a>(
    alloc: Global,
    pairs: &mut [VersionTables<'_>],
    octets: &'a [u8],
) -> Result<View<'a>, Failure<Unread>>
    ensures same { pairs.new ≡ pairs.old }
    ensures exact { Gives (λ d. d) result (message_under pairs.old octets.now) }
{
    // No version is needed: the reader refuses wrong sections too.
    if !pairs.is_empty() && pairs[0].greatest.is_none() {
        return pairs[0].view(alloc, octets);
    }
    let version = version_of(alloc, octets)?;
    view_version(alloc, pairs, version, octets)
}

/// Views the message under the first pair that reads a version.
fn view_version<'a>(
    alloc: Global,
    pairs: &mut [VersionTables<'_>],
    version: u8,
    octets: &'a [u8],
) -> Result<View<'a>, Failure<Unread>>
    ensures same { pairs.new ≡ pairs.old }
    ensures exact { Gives (λ d. d) result (message_of_version pairs.old version octets.now) }
{
    for pair in pairs.iter_mut() {
        if pair.reads(version) {
            return pair.view(alloc, octets);
        }
    }
    Err(Failure::Fault(Unread::NoTables(version)))
}

/// Returns the version of the master tables that octets name.
fn version_of(alloc: Global, octets: &[u8]) -> Result<u8, Failure<Unread>>
    ensures { Gives (λ v. v) result (version_said (envelope_of octets.now)) }
{
    match read_sections(alloc, octets) {
        Ok(sections) => Ok(sections.head.master_version),
        Err(Failure::Fault(why)) => Err(Failure::Fault(Unread::Refused(why))),
        Err(Failure::OutOfMemory) => Err(Failure::OutOfMemory),
    }
}
