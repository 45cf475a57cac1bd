//! The time of a report.
ghost use Rattle.std.specs.Prelude.{◌≡◌, ◌≤◌, pos};
ghost use Rattle.jiff.specs.Words.{days_in_month};
ghost use Rattle.bufr_report_keys.specs.Keys.{greatest_year, from_to, sixtieth};
ghost use Rattle.bufr_report_keys.specs.FirstValues.{moment_by, moment_of};

use crate::first_values::FirstValues;
use bufr_entries::Moment;
use jiff::civil::Date;

/// The last year of a moment.
pub(crate) const GREATEST_YEAR: u16 = 9999;

#[inline(always)]
fn year_of(number: i128) -> Option<u16>
    ensures { result ≡ from_to 1 greatest_year number }
{
    if 1 <= number && number <= i128::from(GREATEST_YEAR) {
        Some(number as u16)
    } else {
        None
    }
}

#[inline(always)]
fn from_to(low: u8, high: u8, number: i128) -> Option<u8>
    ensures { result ≡ from_to low high number }
{
    if i128::from(low) <= number && number <= i128::from(high) {
        Some(number as u8)
    } else {
        None
    }
}

/// The number of days that every month has.
const SHORTEST_MONTH: u8 = 28;

/// Converts a day of this month in the civil calendar. It asks the calendar only for late days.
#[inline(always)]
fn day_of(year: u16, month: u8, number: i128) -> Option<u8>
    requires year { year ≤ greatest_year }
    requires month { (1 ≤ month) × (month ≤ 12) }
    ensures { result ≡ from_to 1 (days_in_month (pos year) month) number }
{
    match from_to(1, SHORTEST_MONTH, number) {
        Some(day) => Some(day),
        None => day_by_calendar(year, month, number),
    }
}

#[inline(never)]
fn day_by_calendar(year: u16, month: u8, number: i128) -> Option<u8>
    requires year { year ≤ greatest_year }
    requires month { (1 ≤ month) × (month ≤ 12) }
    ensures { result ≡ from_to 1 (days_in_month (pos year) month) number }
{
    let day = from_to(1, 31, number)?;
    match Date::new(year as i16, month as i8, day as i8) {
        Ok(_) => Some(day),
        Err(_) => None,
    }
}

/// Converts a minute or second; 0 if it is absent.
#[inline(always)]
fn sixtieth(number: Option<i128>) -> Option<u8>
    ensures { result ≡ sixtieth number }
{
    match number {
        None => Some(0),
        Some(number) => from_to(0, 59, number),
    }
}

/// A time in numbers, as the first fields have them; none if a number is absent.
#[derive(Clone, Copy)]
pub(crate) struct TimeNumbers {
    pub(crate) year: Option<i128>,
    pub(crate) month: Option<i128>,
    pub(crate) day: Option<i128>,
    pub(crate) hour: Option<i128>,
    pub(crate) minute: Option<i128>,
    pub(crate) second: Option<i128>,
}

impl TimeNumbers {
    // Inline, since numbers of two octets then need no room of 128 bits.
    #[inline(always)]
    pub(crate) fn moment(self) -> Option<Moment>
        ensures { result ≡ moment_by self.year self.month self.day self.hour self.minute
            self.second }
    {
        let year = year_of(self.year?)?;
        let month = from_to(1, 12, self.month?)?;
        let day = day_of(year, month, self.day?)?;
        let hour = from_to(0, 23, self.hour?)?;
        let minute = sixtieth(self.minute)?;
        let second = sixtieth(self.second)?;
        Some(Moment {
            year,
            month,
            day,
            hour,
            minute,
            second,
        })
    }
}

pub(crate) fn moment_of(values: &FirstValues) -> Option<Moment>
    ensures { result ≡ moment_of values.now }
{
    let numbers = TimeNumbers {
        year: values.year.usable(),
        month: values.month.usable(),
        day: values.day.usable(),
        hour: values.hour.usable(),
        minute: values.minute.usable(),
        second: values.second.usable(),
    };
    numbers.moment()
}
