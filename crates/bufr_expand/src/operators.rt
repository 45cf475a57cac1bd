//! Applies operators to elements (FM 94 BUFR, Table C).

ghost use Rattle.std.specs.Prelude.{◌≡◌, ◌⊎◌, ◌≤ℤ◌, pos, negsuc};
ghost use Rattle.std.specs.Prelude.{Some, None, MatchResult};
ghost use Rattle.std.specs.Bool.{OnTrue};
ghost use Rattle.bufr_tables.specs.Descriptors.{f_of, x_of};
ghost use Rattle.bufr_expand.specs.OperatorsInForce as operating;
ghost use Rattle.bufr_expand.specs.OperatorsInForce.{none_in_force, in_force_after, effective, untouched};

use crate::limits::{MOST_NUMBER_BITS, MOST_REFERENCE, MOST_SCALE, MOST_TEXT_BITS};
use bufr_tables::{Element, Fxy, Kind};
use thiserror::Error;

/// A coding of a field. A raw number means (raw + `reference`) times 10 to the power of minus
/// `scale`; texts have 0 for both.
#[derive(Clone, Copy, Debug, PartialEq, Eq)]
pub struct Spec {
    /// The kind of its values.
    pub kind: Kind,
    /// The decimal scale.
    pub scale: i32,
    /// The reference value.
    pub reference: i64,
    /// The data width in bits.
    pub width: u32,
}

/// A fault: the spec of this element is outside the limits.
#[derive(Clone, Copy, Debug, Error, PartialEq, Eq)]
#[error("V1 EffectiveRange {0}")]
pub struct EffectiveRange(pub Fxy);

/// A set of operands in force, of 201, 202, 207 and 208.
#[derive(Clone, Copy, PartialEq, Eq)]
pub struct Operators {
    /// The Y of 201: adds Y - 128 to the width.
    pub add_width: Option<u8>,
    /// The Y of 202: adds Y - 128 to the scale.
    pub add_scale: Option<u8>,
    /// The Y of 207: increases scale, reference value and width.
    pub increase: Option<u8>,
    /// The Y of 208: the octets of each text.
    pub characters: Option<u8>,
}

impl Operators {
    /// Starts with no operator in force.
    pub fn none() -> Operators
        ensures { result ≡ none_in_force }
    {
        Operators {
            add_width: None,
            add_scale: None,
            increase: None,
            characters: None,
        }
    }

    /// Returns whether no operator is in force.
    #[inline(always)]
    fn are_none(&self) -> bool
        ensures { OnTrue result (self.now ≡ none_in_force) }
    {
        matches!(
            self,
            Operators {
                add_width: None,
                add_scale: None,
                increase: None,
                characters: None,
            }
        )
    }

    /// Applies 201, 202, 207 or 208; a Y of 0 cancels.
    pub fn apply(&mut self, op: Fxy)
        requires operator { f_of op ≡ 2 }
        requires stays { (x_of op ≡ 1) ⊎ (x_of op ≡ 2) ⊎ (x_of op ≡ 7) ⊎ (x_of op ≡ 8) }
        ensures { self.new ≡ in_force_after self.old op }
    {
        self.put(op);
    }

    /// Returns the spec of an element, if it is within the limits.
    #[inline(always)]
    pub fn effective(&self, element: &Element, fxy: Fxy) -> Result<Spec, EffectiveRange>
        ensures { MatchResult result (λ s. effective fxy element.now self.now ≡ Some s)
            (λ e. (e ≡ record { 0 = fxy }) × (effective fxy element.now self.now ≡ None)) }
    {
        if self.are_none() {
            return untouched(element).ok_or(EffectiveRange(fxy));
        }
        let (_, x, _) = fxy.parts();
        let spec = match (element.kind, self.characters) {
            (Kind::Text, Some(octets)) => text_spec(8 * u32::from(octets)),
            (Kind::Quantity, _) if x != 31 => self.quantity(element),
            _ => untouched(element),
        };
        spec.ok_or(EffectiveRange(fxy))
    }

    /// Applies an operator by its X. A walk can't prove that X is one of the four.
    pub(crate) fn put(&mut self, op: Fxy)
        ensures { self.new ≡ in_force_after self.old op }
    {
        let (_, x, y) = op.parts();
        let operand = if y == 0 { None } else { Some(y) };
        match x {
            1 => self.add_width = operand,
            2 => self.add_scale = operand,
            7 => self.increase = operand,
            _ => self.characters = operand,
        }
    }

    /// Returns the spec of a quantity. An increase above 18 puts every reference value but 0
    /// outside the limits.
    #[inline(never)]
    fn quantity(&self, element: &Element) -> Option<Spec>
        ensures { result ≡ operating.quantity element.now self.now }
    {
        if i64::from(element.scale).unsigned_abs() > MOST_SCALE {
            return None;
        }
        let increase = u32::from(self.increase.unwrap_or(0));
        let reference = if increase == 0 {
            element.reference
        } else if element.reference == 0 {
            0
        } else if increase > 18 {
            return None;
        } else {
            element.reference.checked_mul(10_u64.pow(increase) as i64)?
        };
        let scale = element.scale + added(self.add_scale) + increase as i32;
        let widening = (10 * increase + 2) / 3;
        let width = i64::from(element.width)
            + i64::from(added(self.add_width))
            + i64::from(widening);
        number_spec(Kind::Quantity, scale, reference, width)
    }
}

fn added(operand: Option<u8>) -> i32
    ensures value { result ≡ operating.added operand }
    ensures low { negsuc 127 ≤ℤ result }
    ensures high { result ≤ℤ pos 127 }
{
    match operand {
        None => 0,
        Some(y) => i32::from(y) - 128,
    }
}

fn number_spec(kind: Kind, scale: i32, reference: i64, width: i64) -> Option<Spec>
    ensures { result ≡ operating.number_spec kind scale reference width }
{
    if width < 1
        || width > i64::from(MOST_NUMBER_BITS)
        || reference.unsigned_abs() > MOST_REFERENCE
    {
        return None;
    }
    Some(Spec {
        kind,
        scale,
        reference,
        width: width as u32,
    })
}

fn text_spec(width: u32) -> Option<Spec>
    ensures { result ≡ operating.text_spec width }
{
    if width < 8 || width > MOST_TEXT_BITS || width % 8 != 0 {
        return None;
    }
    Some(Spec {
        kind: Kind::Text,
        scale: 0,
        reference: 0,
        width,
    })
}

/// Returns the spec of an element that no operator changes.
#[inline(always)]
pub(crate) fn untouched(element: &Element) -> Option<Spec>
    ensures { result ≡ untouched element.now }
{
    match element.kind {
        Kind::Text => text_spec(element.width),
        kind => {
            if i64::from(element.scale).unsigned_abs() > MOST_SCALE {
                return None;
            }
            number_spec(
                kind,
                element.scale,
                element.reference,
                i64::from(element.width),
            )
        }
    }
}
