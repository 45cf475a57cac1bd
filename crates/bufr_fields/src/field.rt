use crate::form::{are_ones, is_below, is_greatest, is_octets, is_same};
use crate::limits::MOST_DECIMAL_SCALE;
use bufr_base::Items;
use bufr_expand::Spec;
use bufr_tables::{Fxy, Kind};

/// A raw value of a field.
#[derive(Debug, Drop, PartialEq)]
pub enum Raw {
    /// A number.
    Number(u64),
    /// The octets of a text.
    Text(Items<u8>),
}

impl Raw {
    ghost use Rattle.std.specs.Prelude.{◌≡◌};
    ghost use Rattle.bufr_fields.specs.Forms.{has_form_by, number_of};

    pub(crate) fn has_form(&self, kind: Kind, width: u32) -> bool
        ensures { result ≡ has_form_by kind width self.now }
    {
        match (kind, self) {
            (Kind::Text, Raw::Text(octets)) => is_octets(octets.as_slice(), width),
            (Kind::Text, Raw::Number(_)) => false,
            (_, Raw::Number(number)) => is_below(*number, width),
            (_, Raw::Text(_)) => false,
        }
    }

    /// Returns the number, or 0 for a text.
    pub fn number(&self) -> u64
        ensures { result ≡ number_of self.now }
    {
        match self {
            Raw::Number(number) => *number,
            Raw::Text(_) => 0,
        }
    }
}

/// A field of a subset.
#[derive(Debug, Drop, PartialEq)]
pub struct Field {
    /// The descriptor of its element.
    pub fxy: Fxy,
    /// Its coding, with all operators applied.
    pub spec: Spec,
    /// The raw value.
    pub raw: Raw,
}

/// A field with a number, which can be copied.
#[derive(Clone, Copy, Debug, PartialEq)]
pub struct NumberField {
    /// The descriptor of its element.
    pub fxy: Fxy,
    /// Its coding.
    pub spec: Spec,
    /// The raw number.
    pub number: u64,
}

impl NumberField {
    ghost use Rattle.std.specs.Prelude.{◌≡◌};
    ghost use Rattle.bufr_fields.specs.Values.{as_field, is_missing};

    /// Returns whether the value is missing, like `Field::is_missing`.
    pub fn is_missing(self) -> bool
        ensures { result ≡ is_missing (as_field self) }
    {
        let width = self.spec.width;
        is_greatest(self.number, width)
            && is_below(self.number, width)
            && width != 1
            && !matches!(self.spec.kind, Kind::Text | Kind::Count)
    }
}

impl Field {
    ghost use Rattle.std.specs.Prelude.{◌≡◌};
    ghost use Rattle.bufr_fields.specs.Forms.{matches_spec};
    ghost use Rattle.bufr_fields.specs.Values.{is_missing, value};

    pub(crate) fn matches_spec(&self, fxy: Fxy, spec: Spec) -> bool
        ensures { result ≡ matches_spec fxy spec self.now }
    {
        self.fxy == fxy && is_same(self.spec, spec) && self.raw.has_form(spec.kind, spec.width)
    }

    /// Returns whether the value is missing: all bits are one, more than one, and the field is no
    /// count. A raw value that does not fit its spec is never missing.
    pub fn is_missing(&self) -> bool
        ensures { result ≡ is_missing self.now }
    {
        let width = self.spec.width;
        let is_all_ones = match &self.raw {
            Raw::Number(number) => is_greatest(*number, width),
            Raw::Text(octets) => are_ones(octets.as_slice()),
        };
        is_all_ones
            && self.raw.has_form(self.spec.kind, width)
            && width != 1
            && !matches!(self.spec.kind, Kind::Count)
    }

    /// Returns the raw number plus the reference value, with the spec's scale. `None` if the field
    /// is missing or a text, or the scale is not -600 to 600.
    pub fn value(&self) -> Option<Decimal>
        ensures { result ≡ value self.now }
    {
        match (self.spec.kind, &self.raw) {
            (Kind::Text, _) => None,
            (_, Raw::Text(_)) => None,
            (_, Raw::Number(number)) if !self.is_missing() => {
                let units = i128::from(*number) + i128::from(self.spec.reference);
                Decimal::new(units, self.spec.scale)
            }
            (_, Raw::Number(_)) => None,
        }
    }
}

/// A subset.
#[derive(Debug, Drop, PartialEq)]
pub struct Subset {
    /// Its fields in the order of the data.
    pub fields: Items<Field>,
}

/// A decimal: `units` times ten to the power of minus `scale`.
#[derive(Clone, Copy, Debug, PartialEq, Eq)]
pub struct Decimal {
    /// The number without its decimal point.
    pub units: i128,
    /// The number of digits after the point, or minus the number of zeros to append.
    pub scale: i32,
}

impl Decimal {
    ghost use Rattle.std.specs.Prelude.{◌≡◌};
    ghost use Rattle.bufr_fields.specs.Values.{decimal_within};

    /// Makes a decimal, or `None` if the scale is not -600 to 600.
    pub fn new(units: i128, scale: i32) -> Option<Decimal>
        ensures { result ≡ decimal_within units scale }
    {
        if scale < -MOST_DECIMAL_SCALE || scale > MOST_DECIMAL_SCALE {
            return None;
        }
        Some(Decimal { units, scale })
    }
}
