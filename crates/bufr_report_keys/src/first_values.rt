//! The first values of the elements of keys.
ghost use Rattle.std.specs.Prelude.{◌≡◌, [], Some, None};
ghost use Rattle.std.specs.Option.{option_or};
ghost use Rattle.bufr_report_keys.specs.Usable.{usable_text};

use crate::elements::{
    BLOCK_NUMBER, DAY, HOUR, MINUTE, MOBILE_IDENTIFIER, MONTH, SECOND, STATION_NUMBER,
    WIGOS_ISSUE_NUMBER, WIGOS_ISSUER, WIGOS_LOCAL_IDENTIFIER, WIGOS_SERIES, YEAR,
};
use crate::first_number::FirstNumber;
use crate::usable::{number_of, usable_number, usable_text};
use bufr_base::Items;
use bufr_data::{Field, NumberField, Raw};

/// A record of the first field of each element of keys: a usable number or text, an unusable one,
/// or none.
#[derive(Drop)]
pub(crate) struct FirstValues {
    /// WMO block number (001001).
    pub(crate) block: FirstNumber,
    /// WMO station number (001002).
    pub(crate) station: FirstNumber,
    /// Ship or mobile land station identifier (001011).
    pub(crate) mobile: Option<Option<Items<u8>>>,
    /// WIGOS identifier series (001125).
    pub(crate) series: FirstNumber,
    /// WIGOS issuer of identifier (001126).
    pub(crate) issuer: FirstNumber,
    /// WIGOS issue number (001127).
    pub(crate) issue: FirstNumber,
    /// WIGOS local identifier (001128).
    pub(crate) local: Option<Option<Items<u8>>>,
    /// Year (004001).
    pub(crate) year: FirstNumber,
    /// Month (004002).
    pub(crate) month: FirstNumber,
    /// Day (004003).
    pub(crate) day: FirstNumber,
    /// Hour (004004).
    pub(crate) hour: FirstNumber,
    /// Minute (004005).
    pub(crate) minute: FirstNumber,
    /// Second (004006).
    pub(crate) second: FirstNumber,
}

impl FirstValues {
    ghost use Rattle.bufr_fields.specs.Values.{as_field};
    ghost use Rattle.bufr_report_keys.specs.FirstValues.{first_values, noted, numbered};

    pub(crate) fn none() -> FirstValues
        ensures { result ≡ first_values [] }
    {
        FirstValues {
            block: FirstNumber::unmet(),
            station: FirstNumber::unmet(),
            mobile: None,
            series: FirstNumber::unmet(),
            issuer: FirstNumber::unmet(),
            issue: FirstNumber::unmet(),
            local: None,
            year: FirstNumber::unmet(),
            month: FirstNumber::unmet(),
            day: FirstNumber::unmet(),
            hour: FirstNumber::unmet(),
            minute: FirstNumber::unmet(),
            second: FirstNumber::unmet(),
        }
    }

    /// Notes a field, if it is the first of an element of keys.
    // Inline, since a call would move each field through memory.
    #[inline(always)]
    pub(crate) fn note(&mut self, field: Field)
        ensures { self.new ≡ noted field self.old }
    {
        let Field { fxy, spec, raw } = field;
        match raw {
            Raw::Number(number) => self.note_number(NumberField { fxy, spec, number }),
            raw => self.note_whole(Field { fxy, spec, raw }),
        }
    }

    fn note_whole(&mut self, field: Field)
        ensures { self.new ≡ noted field self.old }
    {
        match field.fxy.bits() {
            MOBILE_IDENTIFIER => note_text(&mut self.mobile, field),
            WIGOS_LOCAL_IDENTIFIER => note_text(&mut self.local, field),
            bits => self.note_said(bits, number_of(&field)),
        }
    }

    #[inline(always)]
    pub(crate) fn note_number(&mut self, field: NumberField)
        ensures { self.new ≡ noted (as_field field) self.old }
    {
        match field.fxy.bits() {
            MOBILE_IDENTIFIER => note_no_text(&mut self.mobile),
            WIGOS_LOCAL_IDENTIFIER => note_no_text(&mut self.local),
            bits => self.note_said(bits, usable_number(field)),
        }
    }

    /// Notes the number of a field without a text, or none if it is unusable.
    #[inline(always)]
    fn note_said(&mut self, bits: u16, number: Option<i128>)
        ensures { self.new ≡ numbered bits (Some number) self.old }
    {
        match bits {
            BLOCK_NUMBER => self.block.note(number),
            STATION_NUMBER => self.station.note(number),
            WIGOS_SERIES => self.series.note(number),
            WIGOS_ISSUER => self.issuer.note(number),
            WIGOS_ISSUE_NUMBER => self.issue.note(number),
            YEAR => self.year.note(number),
            MONTH => self.month.note(number),
            DAY => self.day.note(number),
            HOUR => self.hour.note(number),
            MINUTE => self.minute.note(number),
            SECOND => self.second.note(number),
            _ => {}
        }
    }
}

/// Notes the text of a field, if it is the first of its element.
fn note_text(value: &mut Option<Option<Items<u8>>>, field: Field)
    ensures { value.new ≡ option_or value.old (Some (usable_text field)) }
{
    if value.is_none() {
        *value = Some(usable_text(field));
    }
}

/// Notes a field without a text, if it is the first of its element.
fn note_no_text(value: &mut Option<Option<Items<u8>>>)
    ensures { value.new ≡ option_or value.old (Some None) }
{
    if value.is_none() {
        *value = Some(None);
    }
}
