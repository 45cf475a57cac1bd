//! Fronts: the parts of a key that marks compare first.
ghost use Rattle.std.specs.Prelude.{◌≡◌, get_or};
ghost use Rattle.bufr_entries.specs.Fronts.{front_cmp, place_cmp, front_of_key, head_of_key, first_octets};

use crate::key::{Key, Station};
use std::cmp::Ordering;

/// A head of a key: its centre and categories.
#[derive(Clone, Copy, Drop, PartialEq, Eq, PartialOrd, Ord)]
pub struct KeyHead {
    /// The originating centre.
    pub centre: u16,
    /// The data category (Table A).
    pub category: u8,
    /// The international data sub-category.
    pub international: u8,
    /// The local data sub-category.
    pub local_category: u8,
}

/// A station of a key, as a front has it.
#[derive(Clone, Copy, Drop)]
pub(crate) enum StationStart {
    /// A WMO station; the front has no number.
    Wmo,
    /// The first eight octets of a mobile name, filled with zeros.
    Mobile { name: [u8; 8] },
    /// A WIGOS station; the front has no part of it.
    Open,
}

/// A front of a key, which a mark holds beside the boxed key.
#[derive(Clone, Copy, Drop)]
pub(crate) struct KeyStart {
    pub(crate) head: KeyHead,
    pub(crate) place: StationStart,
}

impl KeyHead {
    pub(crate) fn of_key(key: &Key) -> KeyHead
        ensures { result ≡ head_of_key key.now }
    {
        KeyHead {
            centre: key.centre,
            category: key.category,
            international: key.international,
            local_category: key.local_category,
        }
    }
}

impl KeyStart {
    pub(crate) fn of_key(key: &Key) -> KeyStart
        ensures { result ≡ front_of_key key.now }
    {
        let place = match &key.station {
            Station::Wmo { .. } => StationStart::Wmo,
            Station::Wigos { .. } => StationStart::Open,
            Station::Mobile { name } => StationStart::Mobile {
                name: first_eight(name.as_slice()),
            },
        };
        KeyStart {
            head: KeyHead::of_key(key),
            place,
        }
    }

    /// Compares two keys by their fronts; `Equal` leaves the order open.
    pub(crate) fn order(&self, other: &KeyStart) -> Ordering
        ensures { result ≡ front_cmp self.now other.now }
    {
        match self.head.cmp(&other.head) {
            Ordering::Equal => self.place.order(&other.place),
            order => order,
        }
    }
}

impl StationStart {
    fn order(&self, other: &StationStart) -> Ordering
        ensures { result ≡ place_cmp self.now other.now }
    {
        match (self, other) {
            (StationStart::Wmo, StationStart::Mobile { .. }) => Ordering::Less,
            (StationStart::Mobile { .. }, StationStart::Wmo) => Ordering::Greater,
            (StationStart::Mobile { name }, StationStart::Mobile { name: other_name }) => {
                name.cmp(other_name)
            }
            _ => Ordering::Equal,
        }
    }
}

fn octet_at(octets: &[u8], index: usize) -> u8
    ensures { result ≡ get_or octets.now index 0 }
{
    octets.get(index).copied().unwrap_or(0)
}

fn first_eight(octets: &[u8]) -> [u8; 8]
    ensures { result ≡ first_octets 8 octets.now }
{
    [
        octet_at(octets, 0),
        octet_at(octets, 1),
        octet_at(octets, 2),
        octet_at(octets, 3),
        octet_at(octets, 4),
        octet_at(octets, 5),
        octet_at(octets, 6),
        octet_at(octets, 7),
    ]
}
