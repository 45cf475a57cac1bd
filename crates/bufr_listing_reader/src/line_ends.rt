//! Splits a text into lines.

ghost use Rattle.std.specs.Prelude.{◌≡◌, option_map};
ghost use Rattle.bufr_listing_reader.specs.Lines.{is_skipped};
ghost use Rattle.bufr_listing_reader.specs.Cursors as cursors;
ghost use Rattle.bufr_listing_reader.specs.Cursors.{first_line_of};

use memchr::memchr;

/// Splits off the first line, without its end.
pub(crate) fn first_line(text: &[u8]) -> Option<(&[u8], &[u8])>
    ensures { option_map (λ x. (x.0.now, x.1.now)) result ≡ first_line_of text.now }
{
    if text.is_empty() {
        return None;
    }
    match memchr(b'\n', text) {
        None => Some((text, &text[text.len()..])),
        Some(end) => Some((without_return(&text[..end]), &text[end + 1..])),
    }
}

fn without_return(line: &[u8]) -> &[u8]
    ensures { result.now ≡ cursors.without_return line.now }
{
    match line.split_last() {
        Some((b'\r', front)) => front,
        _ => line,
    }
}

/// Whether a line is empty or begins with `#`.
pub(crate) fn is_comment(line: &[u8]) -> bool
    ensures { result ≡ is_skipped line.now }
{
    match line.first() {
        None => true,
        Some(c) => *c == b'#',
    }
}
