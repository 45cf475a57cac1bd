ghost use Rattle.std.specs.Prelude.{◌≡◌};

use bufr_base::Items;

/// A station: WMO numbers come before WIGOS identifiers, and these before mobile names. Two of one
/// kind compare part by part, names by octets.
#[derive(Clone, Debug, Drop, PartialEq, Eq, PartialOrd, Ord)]
pub enum Station {
    /// A WMO block number and station number (Table B 001001 and 001002).
    Wmo {
        /// The block number (001001).
        block: i128,
        /// The station number within the block (001002).
        number: i128,
    },
    /// A WIGOS identifier (Table B 001125 to 001128).
    Wigos {
        /// The identifier series (001125).
        series: i128,
        /// The issuer of the identifier (001126).
        issuer: i128,
        /// The issue number (001127).
        number: i128,
        /// The local identifier (001128), without its last blanks.
        name: Items<u8>,
    },
    /// A ship or mobile land station identifier (Table B 001011).
    Mobile {
        /// The identifier, without its last blanks.
        name: Items<u8>,
    },
}

// Clauses pin the order of the parts, since contracts see them by position.
impl Station {
    /// Makes a WMO station.
    pub fn wmo(block: i128, number: i128) -> Station
        ensures { result ≡ Station.Wmo block number }
    {
        Station::Wmo { block, number }
    }

    /// Makes a WIGOS station.
    pub fn wigos(series: i128, issuer: i128, number: i128, name: Items<u8>) -> Station
        ensures { result ≡ Station.Wigos series issuer number name }
    {
        Station::Wigos {
            series,
            issuer,
            number,
            name,
        }
    }

    /// Makes a mobile station.
    pub fn mobile(name: Items<u8>) -> Station
        ensures { result ≡ Station.Mobile name }
    {
        Station::Mobile { name }
    }
}

/// A time, compared from year to second (Table B 004001 to 004006).
#[derive(Clone, Copy, Debug, Drop, PartialEq, Eq, PartialOrd, Ord)]
pub struct Moment {
    /// The year, 1 to 9999 (004001).
    pub year: u16,
    /// The month, 1 to 12 (004002).
    pub month: u8,
    /// The day of the month, from 1 (004003).
    pub day: u8,
    /// The hour, 0 to 23 (004004).
    pub hour: u8,
    /// The minute, 0 to 59 (004005).
    pub minute: u8,
    /// The second, 0 to 59 (004006).
    pub second: u8,
}

/// A key of reports of one observation. It compares part by part; centre, categories and sub-centre
/// are from section 1 (FM 94 BUFR).
#[derive(Clone, Debug, Drop, PartialEq, Eq, PartialOrd, Ord)]
pub struct Key {
    /// The originating centre.
    pub centre: u16,
    /// The data category (Table A).
    pub category: u8,
    /// The international data sub-category.
    pub international: u8,
    /// The local data sub-category.
    pub local_category: u8,
    /// The station.
    pub station: Station,
    /// The time.
    pub moment: Moment,
    /// The originating sub-centre.
    pub sub_centre: u16,
}
