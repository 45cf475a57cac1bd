//! Views of single messages.

ghost use Rattle.std.specs.Prelude.{◌≡◌, ℕ, Ok, IfOk};
ghost use Rattle.bufr_base.specs.Answers.{Gives};
ghost use Rattle.bufr_sections.specs.declared.message.Message.{Message};
ghost use Rattle.bufr_message.specs.Messages.{Spells, message_of};

use crate::message_reader::MessageReader;
use crate::message_view::View;
use bufr_base::Failure;
use bufr_sections::Refused;
use bufr_tables::Tables;
use std::alloc::Global;

/// Views the message that octets spell, with no subset built yet. Refuses octets exactly as
/// `decode` does.
pub fn view<'a>(
    alloc: Global,
    tables: &Tables,
    octets: &'a [u8],
) -> Result<View<'a>, Failure<Refused>>
    ensures found { IfOk result (λ d. Spells tables.now d.message octets.now d.slack_octets) }
    ensures only { (m : Message) (z : ℕ) → Spells tables.now m octets.now z
        → Gives (λ d. d) result (Ok (record { message = m; slack_octets = z })) }
    ensures exact { Gives (λ d. d) result (message_of tables.now octets.now) }
{
    MessageReader::new(alloc, tables).read(alloc, octets)
}
