ghost use Rattle.std.specs.Prelude.{◌≡◌, ℕ, ◌+◌, ◌*◌, ◌≤◌, ◌/◌, ◌%◌, ◌^◌, IfSome};
ghost use Rattle.bufr_entries.specs.KeyOrders.{key_cmp};
ghost use Rattle.bufr_entries.specs.PackedKeys.{bits, wmo_head, wmo_moment, wmo_key, wmo_key_of};
ghost use Rattle.bufr_entries.specs.declared.key_start.StationStart.TheVariants.{Wmo};

use crate::key::{Key, Moment, Station};
use crate::key_start::{KeyHead, KeyStart, StationStart};
use std::cmp::Ordering;

/// A packed key, without its sub-centre, of a WMO station with block and number of two octets each.
/// Its parts begin in the highest bits, so it compares as the key does.
#[derive(Clone, Copy, Drop)]
pub(crate) struct WmoWords {
    pub(crate) high: u64,
    pub(crate) low: u64,
}

#[inline(always)]
fn octet(word: u64, from: u32) -> u8
    requires { from + 8 ≤ 64 }
    ensures { result ≡ bits word from 8 }
{
    ((word >> from) % 256) as u8
}

#[inline(always)]
fn two_octets(word: u64, from: u32) -> u16
    requires { from + 16 ≤ 64 }
    ensures { result ≡ bits word from 16 }
{
    ((word >> from) % 65_536) as u16
}

/// Packs centre, categories, block and the high octet of the number.
#[inline(always)]
fn high_word(head: KeyHead, block: u16, number: u16) -> u64
    ensures head { wmo_head result ≡ head }
    ensures block { bits result 8 16 ≡ block }
    ensures number { bits result 0 8 ≡ number / 2 ^ 8 }
{
    let categories = (head.category as u64 * 256 + head.international as u64) * 256
        + head.local_category as u64;
    let centre = head.centre as u64 * 16_777_216 + categories;
    (centre * 65_536 + block as u64) * 256 + number as u64 / 256
}

/// Packs the low octet of the number and the moment.
#[inline(always)]
fn low_word(number: u16, moment: Moment) -> u64
    ensures number { bits result 56 8 ≡ number % 2 ^ 8 }
    ensures moment { wmo_moment result ≡ moment }
{
    let date = (moment.year as u64 * 256 + moment.month as u64) * 256 + moment.day as u64;
    let time = (moment.hour as u64 * 256 + moment.minute as u64) * 256 + moment.second as u64;
    ((number as u64 % 256) * 4_294_967_296 + date) * 16_777_216 + time
}

impl WmoWords {
    /// Packs a key, if block and number fit in two octets each.
    pub(crate) fn of_key(key: &Key) -> Option<WmoWords>
        ensures { IfSome result (λ words. key.now ≡ wmo_key words key.now.sub_centre) }
    {
        let Station::Wmo { block, number } = &key.station else {
            return None;
        };
        let (Ok(block), Ok(number)) = (u16::try_from(*block), u16::try_from(*number)) else {
            return None;
        };
        Some(WmoWords {
            high: high_word(KeyHead::of_key(key), block, number),
            low: low_word(number, key.moment),
        })
    }

    #[inline(always)]
    pub(crate) fn of_parts(head: KeyHead, block: u16, number: u16, moment: Moment) -> WmoWords
        ensures { (sub_centre : ℕ)
            → wmo_key result sub_centre ≡ wmo_key_of head block number moment sub_centre }
    {
        WmoWords {
            high: high_word(head, block, number),
            low: low_word(number, moment),
        }
    }

    pub(crate) fn key(self, sub_centre: u16) -> Key
        ensures { result ≡ wmo_key self sub_centre }
    {
        let WmoWords { high, low } = self;
        let head = self.head();
        Key {
            centre: head.centre,
            category: head.category,
            international: head.international,
            local_category: head.local_category,
            station: Station::Wmo {
                block: two_octets(high, 8) as i128,
                number: octet(high, 0) as i128 * 256 + octet(low, 56) as i128,
            },
            moment: Moment {
                year: two_octets(low, 40),
                month: octet(low, 32),
                day: octet(low, 24),
                hour: octet(low, 16),
                minute: octet(low, 8),
                second: octet(low, 0),
            },
            sub_centre,
        }
    }

    fn head(self) -> KeyHead
        ensures { result ≡ wmo_head self.high }
    {
        KeyHead {
            centre: two_octets(self.high, 48),
            category: octet(self.high, 40),
            international: octet(self.high, 32),
            local_category: octet(self.high, 24),
        }
    }

    pub(crate) fn front(self) -> KeyStart
        ensures { result ≡ record { head = wmo_head self.high; place = Wmo } }
    {
        KeyStart {
            head: self.head(),
            place: StationStart::Wmo,
        }
    }

    /// Compares two keys, the words of each as one number.
    // It returns constants, so a caller that asks only for the lesser computes no order.
    #[inline(always)]
    pub(crate) fn order(self, sub_centre: u16, other: WmoWords, other_sub_centre: u16) -> Ordering
        ensures { result ≡ key_cmp (wmo_key self sub_centre) (wmo_key other other_sub_centre) }
    {
        let first = self.number();
        let second = other.number();
        if first < second {
            return Ordering::Less;
        }
        if first > second {
            return Ordering::Greater;
        }
        sub_centre.cmp(&other_sub_centre)
    }

    #[inline(always)]
    fn number(self) -> u128
        ensures { result ≡ self.high * 2 ^ 64 + self.low }
    {
        self.high as u128 * 18_446_744_073_709_551_616 + self.low as u128
    }
}
