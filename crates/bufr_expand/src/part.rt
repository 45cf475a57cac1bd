//! Finds what one descriptor of a list means.

ghost use Rattle.std.specs.Prelude.{◌≡◌, ◌≤◌, length, pos, IfOk};
ghost use Rattle.bufr_base.specs.Answers.{result_map};
ghost use Rattle.bufr_tables.specs.Descriptors.{x_of, y_of};
ghost use Rattle.bufr_expand.specs.Expansion.{found_at, delayed_found};
ghost use Rattle.bufr_expand.specs.Expansion.{width_found};
ghost use Rattle.bufr_expand.specs.Parts.{seen};

use crate::limits::{MOST_FACTOR_BITS, MOST_NUMBER_BITS};
use crate::node::{Node, Repetitions, TemplateFault};
use bufr_tables::{Element, Fxy, Kind, Tables};

/// A meaning of a descriptor.
#[derive(Clone, Copy)]
pub(crate) enum Part<'a> {
    /// One node.
    Single(Node),
    /// The descriptors of a sequence.
    Inner(&'a [Fxy]),
    /// A replication of these descriptors.
    Replication(Repetitions, &'a [Fxy]),
}

/// A part, and the number of descriptors that it takes after the first.
#[derive(Clone, Copy)]
pub(crate) struct FirstPart<'a> {
    /// The part.
    pub(crate) part: Part<'a>,
    /// The number of descriptors taken.
    pub(crate) taken: usize,
}

/// Finds the meaning of `first`: an element of Table B, a replication of the next X descriptors, an
/// operator or a sequence of Table D; or one of X1 to X7.
pub(crate) fn found_at<'a>(
    tables: &'a Tables,
    first: Fxy,
    behind: &'a [Fxy],
) -> Result<FirstPart<'a>, TemplateFault>
    ensures value { result_map seen result ≡ found_at tables.now first behind.now }
    ensures taken { IfOk result (λ p. p.taken ≤ length behind.now) }
{
    let (part, taken) = match first.parts() {
        (0, _, _) => match tables.element(first) {
            Some(element) => (Part::Single(Node::Element(first, *element)), 0),
            None => return Err(TemplateFault::UnknownElement(first)),
        },
        (1, 0, _) => return Err(TemplateFault::BadReplication(first)),
        (1, x, 0) => return delayed_found(tables, first, x as usize, behind),
        (1, x, _) if behind.len() < x as usize => {
            return Err(TemplateFault::BadReplication(first));
        }
        (1, x, y) => {
            let body = &behind[..x as usize];
            let times = Repetitions::Times(y as u64);
            (Part::Replication(times, body), body.len())
        }
        (2, 1 | 2 | 7 | 8, _) => (Part::Single(Node::Operator(first)), 0),
        (2, 5 | 6, 0) => return Err(TemplateFault::BadOperand(first)),
        (2, 5, y) => {
            let text = plain(Kind::Text, 8 * y as u32);
            (Part::Single(Node::Untouched(first, text)), 0)
        }
        (2, 6, y) => return width_found(tables, first, y as u32, behind),
        (2, _, _) => return Err(TemplateFault::UnsupportedOperator(first)),
        _ => match tables.sequence(first) {
            Some(list) => (Part::Inner(list), 0),
            None => return Err(TemplateFault::UnknownSequence(first)),
        },
    };
    Ok(FirstPart { part, taken })
}

/// Finds a delayed replication of `count` descriptors. `BadReplication` comes if nothing follows,
/// `BadFactor` at a wrong factor, then `BadReplication` if the list is too short.
fn delayed_found<'a>(
    tables: &Tables,
    first: Fxy,
    count: usize,
    behind: &'a [Fxy],
) -> Result<FirstPart<'a>, TemplateFault>
    requires { count ≡ x_of first }
    ensures value { result_map seen result ≡ delayed_found tables.now first behind.now }
    ensures taken { IfOk result (λ p. p.taken ≤ length behind.now) }
{
    let Some((factor, body)) = behind.split_first() else {
        return Err(TemplateFault::BadReplication(first));
    };
    let is_factor = matches!(factor.parts(), (0, 31, 0..=2));
    let element = match tables.element(*factor) {
        Some(
            element @ Element {
                kind: Kind::Quantity | Kind::Count | Kind::Code | Kind::Flag,
                scale: 0,
                reference: 0,
                width: 1..=MOST_FACTOR_BITS,
            },
        ) if is_factor => *element,
        _ => return Err(TemplateFault::BadFactor(*factor)),
    };
    if body.len() < count {
        return Err(TemplateFault::BadReplication(first));
    }
    let repetitions = Repetitions::Factor(*factor, element);
    Ok(FirstPart {
        part: Part::Replication(repetitions, &body[..count]),
        taken: count + 1,
    })
}

/// Finds the element after 206: by its row if that has the width, else as a number. `Dangling206`
/// without an element, `BadOperand` above 63 bits.
fn width_found<'a>(
    tables: &Tables,
    first: Fxy,
    width: u32,
    behind: &[Fxy],
) -> Result<FirstPart<'a>, TemplateFault>
    requires { width ≡ y_of first }
    ensures value { result_map seen result ≡ width_found tables.now first behind.now }
    ensures taken { IfOk result (λ p. p.taken ≤ length behind.now) }
{
    let local = match behind.first() {
        Some(local) if local.f() == 0 => *local,
        _ => return Err(TemplateFault::Dangling206(first)),
    };
    let element = match tables.element(local) {
        Some(element) if element.width == width => *element,
        _ if width > MOST_NUMBER_BITS => return Err(TemplateFault::BadOperand(first)),
        _ => plain(Kind::Quantity, width),
    };
    Ok(FirstPart {
        part: Part::Single(Node::Untouched(local, element)),
        taken: 1,
    })
}

fn plain(kind: Kind, width: u32) -> Element
    ensures { result ≡ record { kind = kind; scale = pos 0; reference = pos 0; width = width } }
{
    Element {
        kind,
        scale: 0,
        reference: 0,
        width,
    }
}
