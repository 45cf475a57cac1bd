//! Reads the lines of a listing in turn.

ghost use Rattle.std.specs.Prelude.{◌<◌, ◌+◌, ◌^◌, length};

use crate::line_ends::{first_line, is_comment};
use bufr_base::Failure;
use bufr_listing::ListingFault;

/// A line that is neither empty nor a comment.
#[derive(Clone, Copy)]
pub(crate) struct TextLine<'a> {
    /// The number of the line in the text, from 1.
    pub(crate) number: u64,
    /// The octets without the line end.
    pub(crate) text: &'a [u8],
}

/// A cursor over the lines: the next one, the text after it, and the number of lines found,
/// comments among them. Finds each line once.
#[derive(Clone, Copy)]
pub(crate) struct Lines<'a> {
    next: Option<TextLine<'a>>,
    rest: &'a [u8],
    found: u64,
    ghost fits: { found + length rest.now < 2 ^ 64 },
}

impl<'a> Lines<'a> {
    ghost use Rattle.std.specs.Prelude.{◌≡◌};
    ghost use Rattle.std.specs.Str.Lines.{lines};
    ghost use Rattle.bufr_base.specs.Answers.{Gives};
    ghost use Rattle.bufr_listing_reader.specs.Lines.{counting_from, counting_lines};
    ghost use Rattle.bufr_listing_reader.specs.Cursors as cursors;
    ghost use Rattle.bufr_listing_reader.specs.Cursors.{printed, next_of};

    #[tactic(auto, unfolding(crate::specs::Cursors::left, crate::specs::Cursors::past))]
    pub(crate) fn of(text: &'a [u8]) -> Lines<'a>
        ensures lines { cursors.left result ≡ counting_lines text.now }
        ensures past { cursors.past result ≡ length (lines text.now) + 1 }
    {
        let mut all = Lines {
            next: None,
            rest: text,
            found: 0,
        };
        all.find();
        all
    }

    #[tactic(auto, using(crate::specs::Cursors::next_is), unfolding(crate::specs::Cursors::left, crate::specs::Cursors::past))]
    pub(crate) fn peek(&self) -> Option<TextLine<'a>>
        ensures { cursors.IsNextLine (cursors.left self.now) result }
    {
        self.next
    }

    /// Returns the next line. After the last, L1 with the next number.
    #[tactic(auto, unfolding(crate::specs::Cursors::left, crate::specs::Cursors::past))]
    pub(crate) fn take(&mut self) -> Result<TextLine<'a>, Failure<ListingFault>>
        ensures taken { Gives (λ x. (printed x, cursors.left self.new)) result
            (next_of (cursors.past self.old) (cursors.left self.old)) }
        ensures past { cursors.past self.new ≡ cursors.past self.old }
    {
        match self.next {
            None => Err(Failure::Fault(ListingFault::BadLine(u128::from(self.found) + 1))),
            Some(line) => {
                self.find();
                Ok(line)
            }
        }
    }

    #[tactic(auto, unfolding(crate::specs::Cursors::left, crate::specs::Cursors::past))]
    pub(crate) fn pass(&mut self)
        ensures lines { cursors.left self.new ≡ cursors.behind (cursors.left self.old) }
        ensures past { cursors.past self.new ≡ cursors.past self.old }
    {
        if self.next.is_some() {
            self.find();
        }
    }

    /// Finds the next line that is neither empty nor a comment.
    #[tactic(auto, unfolding(crate::specs::Cursors::left, crate::specs::Cursors::past))]
    fn find(&mut self)
        ensures lines { cursors.left self.new
            ≡ counting_from (self.old.found + 1) (lines self.old.rest.now) }
        ensures past { cursors.past self.new
            ≡ self.old.found + length (lines self.old.rest.now) + 1 }
    {
        self.next = None;
        while let Some((line, rest)) = first_line(self.rest) {
            self.found += 1;
            self.rest = rest;
            if !is_comment(line) {
                self.next = Some(TextLine {
                    number: self.found,
                    text: line,
                });
                return;
            }
        }
    }
}
