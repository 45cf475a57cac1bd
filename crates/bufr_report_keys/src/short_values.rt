//! The first values of the elements of keys, in little room.
ghost use Rattle.std.specs.Prelude.{◌≡◌, [], pos};
ghost use Rattle.std.specs.Option.{option_map};
ghost use Rattle.bufr_report_keys.specs.Said.{no_text};

use crate::elements::{
    BLOCK_NUMBER, DAY, HOUR, MINUTE, MOBILE_IDENTIFIER, MONTH, SECOND, STATION_NUMBER,
    WIGOS_ISSUE_NUMBER, WIGOS_ISSUER, WIGOS_LOCAL_IDENTIFIER, WIGOS_SERIES, YEAR,
};
use crate::first_short::FirstShort;
use crate::first_values::FirstValues;
use crate::moments::TimeNumbers;
use bufr_base::Items;
use bufr_data::ShortNumber;
use bufr_entries::Moment;
use std::marker::Model;

/// A record of the first values of the elements of keys, while all fields are short numbers.
/// Contracts see `FirstValues`.
#[derive(Drop)]
pub(crate) struct ShortValues {
    pub(crate) block: FirstShort,
    pub(crate) station: FirstShort,
    /// Whether there is a field 001011, which `FirstValues` has as a text.
    pub(crate) mobile: bool,
    pub(crate) series: FirstShort,
    pub(crate) issuer: FirstShort,
    pub(crate) issue: FirstShort,
    /// Whether there is a field 001128, which `FirstValues` has as a text.
    pub(crate) local: bool,
    pub(crate) year: FirstShort,
    pub(crate) month: FirstShort,
    pub(crate) day: FirstShort,
    pub(crate) hour: FirstShort,
    pub(crate) minute: FirstShort,
    pub(crate) second: FirstShort,
}

impl Model for ShortValues {
    ghost use Rattle.bufr_report_keys.specs.declared.first_values.FirstValues.{FirstValues};
    ghost use Rattle.bufr_report_keys.specs.Said.{no_text};

    ghost Value = { FirstValues };

    ghost view = { λ v. record {
      block = v.block;
      station = v.station;
      mobile = no_text v.mobile;
      series = v.series;
      issuer = v.issuer;
      issue = v.issue;
      local = no_text v.local;
      year = v.year;
      month = v.month;
      day = v.day;
      hour = v.hour;
      minute = v.minute;
      second = v.second;
    } };
}

impl ShortValues {
    ghost use Rattle.bufr_report_keys.specs.FirstValues.{first_values, moment_of, short_noted};

    #[inline(always)]
    pub(crate) fn none() -> ShortValues
        ensures { result ≡ first_values [] }
    {
        ShortValues {
            block: FirstShort::unmet(),
            station: FirstShort::unmet(),
            mobile: false,
            series: FirstShort::unmet(),
            issuer: FirstShort::unmet(),
            issue: FirstShort::unmet(),
            local: false,
            year: FirstShort::unmet(),
            month: FirstShort::unmet(),
            day: FirstShort::unmet(),
            hour: FirstShort::unmet(),
            minute: FirstShort::unmet(),
            second: FirstShort::unmet(),
        }
    }

    /// Notes a field, if it is the first of an element of keys.
    #[inline(always)]
    pub(crate) fn note(&mut self, field: ShortNumber)
        ensures { self.new ≡ short_noted field.fxy (option_map pos field.number) self.old }
    {
        let ShortNumber { fxy, number } = field;
        match fxy.bits() {
            BLOCK_NUMBER => self.block.note(number),
            STATION_NUMBER => self.station.note(number),
            MOBILE_IDENTIFIER => self.mobile = true,
            WIGOS_SERIES => self.series.note(number),
            WIGOS_ISSUER => self.issuer.note(number),
            WIGOS_ISSUE_NUMBER => self.issue.note(number),
            WIGOS_LOCAL_IDENTIFIER => self.local = true,
            YEAR => self.year.note(number),
            MONTH => self.month.note(number),
            DAY => self.day.note(number),
            HOUR => self.hour.note(number),
            MINUTE => self.minute.note(number),
            SECOND => self.second.note(number),
            _ => {}
        }
    }

    #[inline(always)]
    pub(crate) fn moment(&self) -> Option<Moment>
        ensures { result ≡ moment_of self.now }
    {
        let numbers = TimeNumbers {
            year: self.year.whole(),
            month: self.month.whole(),
            day: self.day.whole(),
            hour: self.hour.whole(),
            minute: self.minute.whole(),
            second: self.second.whole(),
        };
        numbers.moment()
    }

    /// Copies the values. A caller that lends only copies keeps the values themselves in registers.
    #[inline(always)]
    pub(crate) fn copied(&self) -> ShortValues
        ensures { result ≡ self.now }
    {
        ShortValues {
            block: self.block.copied(),
            station: self.station.copied(),
            mobile: self.mobile,
            series: self.series.copied(),
            issuer: self.issuer.copied(),
            issue: self.issue.copied(),
            local: self.local,
            year: self.year.copied(),
            month: self.month.copied(),
            day: self.day.copied(),
            hour: self.hour.copied(),
            minute: self.minute.copied(),
            second: self.second.copied(),
        }
    }

    /// Makes the same values as `FirstValues`.
    pub(crate) fn widened(&self) -> FirstValues
        ensures { result ≡ self.now }
    {
        FirstValues {
            block: self.block.widened(),
            station: self.station.widened(),
            mobile: without_text(self.mobile),
            series: self.series.widened(),
            issuer: self.issuer.widened(),
            issue: self.issue.widened(),
            local: without_text(self.local),
            year: self.year.widened(),
            month: self.month.widened(),
            day: self.day.widened(),
            hour: self.hour.widened(),
            minute: self.minute.widened(),
            second: self.second.widened(),
        }
    }
}

/// Returns `Some(None)` for a field without text that was met, else `None`.
fn without_text(is_met: bool) -> Option<Option<Items<u8>>>
    ensures { result ≡ no_text is_met }
{
    if is_met { Some(None) } else { None }
}
