//! Fields of comma-separated values.

ghost use Rattle.std.specs.Prelude.{◌≡◌, ◌++◌, OnOk};
ghost use Rattle.csv.specs.Writing.{default_writer, escaped, field_text, needs_byte, needs_quotes};

use bufr_base::OutOfMemory;
use std::alloc::Global;

// If memory runs out, the functions below leave a part of what they add.

/// Adds a field, between quotes if it needs them.
pub(crate) fn push_field(text: &mut Vec<u8>, field: &[u8]) -> Result<(), OutOfMemory>
    ensures { OnOk result (text.new.items
        ≡ text.old.items ++ field_text default_writer field.now) }
{
    if !needs_quotes(field) {
        return text.extend_from_slice(field);
    }
    text.push(b'"')?;
    push_escaped(text, field)?;
    text.push(b'"')?;
    Ok(())
}

/// Returns whether a field needs quotes around it.
pub(crate) fn needs_quotes(field: &[u8]) -> bool
    ensures { result ≡ needs_quotes default_writer field.now }
{
    field.iter().any(|octet| needs_byte(*octet))
}

/// Returns whether an octet needs quotes around its field.
pub(crate) fn needs_byte(octet: u8) -> bool
    ensures { result ≡ needs_byte default_writer octet }
{
    octet == b',' || octet == b'"' || octet == b'\r' || octet == b'\n'
}

/// Adds the octets of a field, with each quote twice.
#[tactic(auto, unfolding(csv::specs::Writing::escaped))]
fn push_escaped(text: &mut Vec<u8>, field: &[u8]) -> Result<(), OutOfMemory>
    ensures { OnOk result (text.new.items
        ≡ text.old.items ++ escaped default_writer field.now) }
{
    let mut left = field;
    while let [octet, others @ ..] = left {
        if *octet == b'"' {
            text.push(b'"')?;
        }
        text.push(*octet)?;
        left = others;
    }
    Ok(())
}
