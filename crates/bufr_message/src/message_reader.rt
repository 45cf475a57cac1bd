//! Reads a stream's messages under the same tables.

ghost use Rattle.std.specs.Prelude.{◌≡◌, ℕ, Ok, IfOk};
ghost use Rattle.bufr_base.specs.Answers.{Gives, result_map};
ghost use Rattle.bufr_sections.specs.declared.message.Message.{Message};
ghost use Rattle.bufr_message.specs.Summary.{summary};
ghost use Rattle.bufr_message.specs.Messages.{Spells, message_of};

use crate::laws::messages_are_spelt;
use crate::message_view::{View, check_keeping, view_keeping};
use crate::summary::Summary;
use bufr_base::Failure;
use bufr_data::CachedTemplate;
use bufr_sections::Refused;
use bufr_tables::Tables;
use std::alloc::Global;
use std::marker::Model;

/// A reader of messages under the same tables. Keeps the last four lists of descriptors with their
/// templates. Contracts see the tables.
#[derive(Drop)]
pub struct MessageReader<'t> {
    tables: &'t Tables,
    asked: &'t [u16],
    kept: Vec<CachedTemplate>,
}

impl<'t> Model for MessageReader<'t> {
    ghost use Rattle.bufr_tables.specs.Entries.{Entries};
    ghost use Rattle.bufr_data.specs.Kept.{AreKept};

    ghost Value = { Entries };

    ghost view = { λ t. t.tables.now };

    ghost invariant = { λ t. AreKept t.tables.now t.kept.items };
}

impl<'t> MessageReader<'t> {
    /// Starts without a template.
    pub fn new(alloc: Global, tables: &'t Tables) -> MessageReader<'t>
        ensures { result ≡ tables.now }
    {
        MessageReader::for_elements(alloc, tables, &[])
    }

    /// Starts without a template. It finds the places of the fields of some elements, given by the
    /// 16 bits of their descriptors, for `View::chosen`.
    pub fn for_elements(alloc: Global, tables: &'t Tables, asked: &'t [u16]) -> MessageReader<'t>
        ensures { result ≡ tables.now }
    {
        MessageReader {
            tables,
            asked,
            kept: Vec::new(alloc),
        }
    }

    /// Returns the tables.
    pub fn tables(&self) -> &'t Tables
        ensures { result.now ≡ self.now }
    {
        self.tables
    }

    /// Views a message as `view` does, but builds no template for the last four lists of
    /// descriptors that had one.
    pub fn read<'a>(
        &mut self,
        alloc: Global,
        octets: &'a [u8],
    ) -> Result<View<'a>, Failure<Refused>>
        ensures same { self.new ≡ self.old }
        ensures found { IfOk result (λ d. Spells self.old d.message octets.now d.slack_octets) }
        ensures only { (m : Message) (z : ℕ) → Spells self.old m octets.now z
            → Gives (λ d. d) result (Ok (record { message = m; slack_octets = z })) }
        ensures exact { Gives (λ d. d) result (message_of self.old octets.now) }
    {
        messages_are_spelt();
        view_keeping(alloc, self.tables, self.asked, &mut self.kept, octets)
    }

    /// Judges the message that octets spell, or refuses them as `view` does.
    pub fn check(&mut self, alloc: Global, octets: &[u8]) -> Result<Summary, Failure<Refused>>
        ensures same { self.new ≡ self.old }
        ensures exact { Gives (λ j. j) result (result_map summary (message_of self.old octets.now)) }
    {
        check_keeping(alloc, self.tables, &mut self.kept, octets)
    }
}
