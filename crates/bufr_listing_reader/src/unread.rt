//! Reads the messages of a text one at a time.

ghost use Rattle.std.specs.Prelude.{◌≡◌, ◌≤◌, length};
ghost use Rattle.bufr_listing_reader.specs.Reading.{messages_listed};
ghost use Rattle.bufr_listing_reader.specs.Unread.{HandsOutMessage, all_of, unread_in};

use crate::lines::Lines;
use crate::messages::read_message;
use bufr_base::Failure;
use bufr_data::TemplateCache;
use bufr_listing::ListingFault;
use bufr_sections::Message;
use bufr_tables::Tables;
use std::alloc::Global;
use std::marker::Model;

/// A reader of the messages of a text. Keeps the templates of the last four lists of descriptors.
/// Contracts see the messages left before the first fault, and that fault.
#[derive(Drop)]
pub struct Messages<'a> {
    templates: TemplateCache<'a>,
    lines: Lines<'a>,
}

impl<'a> Model for Messages<'a> {
    ghost use Rattle.bufr_listing_reader.specs.Cursors.{left, past};
    ghost use Rattle.bufr_listing_reader.specs.Unread.{Unread, unread};

    ghost Value = { Unread };

    ghost view = { λ m. unread m.templates (past m.lines) (left m.lines) };
}

impl<'a> Messages<'a> {
    /// Starts before the first message.
    pub fn of(alloc: Global, tables: &'a Tables, text: &'a [u8]) -> Messages<'a>
        ensures exact { result ≡ unread_in tables.now text.now }
        ensures listed { all_of result ≡ messages_listed tables.now text.now }
        ensures few { length result.messages ≤ length text.now }
    {
        Messages {
            templates: TemplateCache::new(alloc, tables),
            lines: Lines::of(text),
        }
    }

    /// Returns the next message, or `None` at the end. A fault L1 to L3, as of `read`, stays; after
    /// `OutOfMemory` the same message comes next.
    pub fn next(&mut self, alloc: Global) -> Result<Option<Message>, Failure<ListingFault>>
        ensures { HandsOutMessage self.old result self.new }
    {
        let mut ahead = self.lines;
        if ahead.peek().is_none() {
            return Ok(None);
        }
        let message = read_message(alloc, &mut self.templates, &mut ahead)?;
        self.lines = ahead;
        Ok(Some(message))
    }
}
