//! Reads a text of a column into a room.

ghost use Rattle.std.specs.Prelude.{◌≡◌, ◌<◌, ◌≤◌, ◌*◌, ◌/◌, ℕ, take, drop, get_or, IfSome, Some};
ghost use Rattle.bufr_bits.specs.Bits.{octets_at};
ghost use Rattle.bufr_bits.specs.Ends.{left};
ghost use Rattle.bufr_fields.specs.declared.field.Raw.TheVariants as raws;
ghost use Rattle.bufr_tables.specs.declared.element.Kind.TheVariants.{Text};
ghost use Rattle.bufr_data.specs.Compressed.Indexed.{one_at};
ghost use Rattle.bufr_data.specs.Compressed.Reading as reading;

use crate::compressed::value::find_text;
use crate::plain::copy::{SUBSET_ROOM, fill_room};
use bufr_bits::BitReader;
use bufr_expand::Spec;
use bufr_fields::are_ones;

/// The most octets of a text that is lent.
const MOST_LENT: usize = 64;

/// Puts the text at `index` of the column in `room`, and lends it. `None` if it has more than 64
/// octets.
pub(crate) fn lent_text<'r>(
    reader: &mut BitReader,
    spec: Spec,
    index: u16,
    room: &'r mut [u8; SUBSET_ROOM],
) -> Option<&'r [u8]>
    requires { spec.kind ≡ Text }
    ensures { IfSome result (λ text.
        one_at spec index (left reader.old) ≡ Some (raws.Text text.now)) }
{
    let octets = (spec.width / 8) as usize;
    if octets > MOST_LENT {
        return None;
    }
    let count = find_text(reader, spec, index)?;
    let own = copy_octets(reader, count, room)?;
    fill_text(room, own, octets);
    Some(&room[..octets])
}

/// Copies the next `count` octets to the start of `room`. `None` if fewer are left, or for more
/// than 64.
fn copy_octets(reader: &BitReader, count: u64, room: &mut [u8; SUBSET_ROOM]) -> Option<usize>
    ensures copied { IfSome result (λ own. octets_at count (left reader.now)
        ≡ Some (take own room.new, drop (count * 8) (left reader.now))) }
    ensures all { IfSome result (λ own. own ≡ count) }
{
    let from = reader.place();
    let bits = 8 * u128::from(count);
    if reader.left() < bits {
        return None;
    }
    let own = fill_room(reader.octets(), from, from + bits, room)?;
    are_octets(&room[..]);
    Some(own)
}

/// Shows the prover that octets are below 256.
#[inline(always)]
fn are_octets(octets: &[u8])
    ensures { (i : ℕ) → get_or octets.now i 0 < 256 }
{
    let _ = octets;
}

/// Fills the text of `own` octets at the start of `room` with spaces, or with ones if it is all
/// ones.
fn fill_text(room: &mut [u8; SUBSET_ROOM], own: usize, octets: usize)
    requires shorter { own ≤ octets }
    requires inside { octets ≤ SUBSET_ROOM }
    ensures { raws.Text (take octets room.new) ≡ reading.filled octets (take own room.old) }
{
    if own == octets {
        return;
    }
    let filler = if are_ones(&room[..own]) { 255 } else { 32 };
    room[own..octets].copy_from_slice(&[filler; SUBSET_ROOM][own..octets]);
}
