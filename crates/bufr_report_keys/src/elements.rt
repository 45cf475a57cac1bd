//! The elements of Table B that say a station or a time, as descriptors of 16 bits. The definitions
//! cite them by these names, and `worked_values` pins each.

ghost use Rattle.std.specs.Prelude.{◌≡◌};
ghost use Rattle.bufr_report_keys.specs.Asked.{elements};

/// WMO block number, 001001.
pub(crate) const BLOCK_NUMBER: u16 = 0x0101;
/// WMO station number, 001002.
pub(crate) const STATION_NUMBER: u16 = 0x0102;
/// Ship or mobile land station identifier, 001011.
pub(crate) const MOBILE_IDENTIFIER: u16 = 0x010B;
/// WIGOS identifier series, 001125.
pub(crate) const WIGOS_SERIES: u16 = 0x017D;
/// WIGOS issuer of identifier, 001126.
pub(crate) const WIGOS_ISSUER: u16 = 0x017E;
/// WIGOS issue number, 001127.
pub(crate) const WIGOS_ISSUE_NUMBER: u16 = 0x017F;
/// WIGOS local identifier, 001128.
pub(crate) const WIGOS_LOCAL_IDENTIFIER: u16 = 0x0180;
/// Year, 004001.
pub(crate) const YEAR: u16 = 0x0401;
/// Month, 004002.
pub(crate) const MONTH: u16 = 0x0402;
/// Day, 004003.
pub(crate) const DAY: u16 = 0x0403;
/// Hour, 004004.
pub(crate) const HOUR: u16 = 0x0404;
/// Minute, 004005.
pub(crate) const MINUTE: u16 = 0x0405;
/// Second, 004006.
pub(crate) const SECOND: u16 = 0x0406;

static KEY_ELEMENTS: [u16; 13] = [
    BLOCK_NUMBER,
    STATION_NUMBER,
    MOBILE_IDENTIFIER,
    WIGOS_SERIES,
    WIGOS_ISSUER,
    WIGOS_ISSUE_NUMBER,
    WIGOS_LOCAL_IDENTIFIER,
    YEAR,
    MONTH,
    DAY,
    HOUR,
    MINUTE,
    SECOND,
];

/// Returns the elements of keys, as the 16 bits of their descriptors.
pub fn key_elements() -> &'static [u16]
    ensures { result.now ≡ elements }
{
    &KEY_ELEMENTS
}
