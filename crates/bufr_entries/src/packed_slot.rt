ghost use Rattle.std.specs.Prelude.{◌≡◌, IfOk, IfSome, MatchOption, Some, None};
ghost use Rattle.std.specs.Option.{option_map};
ghost use Rattle.bufr_entries.specs.KeyOrders.{octets_cmp};
ghost use Rattle.bufr_entries.specs.Entries.{slot_by};
ghost use Rattle.bufr_entries.specs.Marks.{mark_in, IsFronted};
ghost use Rattle.bufr_entries.specs.Fronts.{front_of_key};
ghost use Rattle.bufr_entries.specs.PackedKeys.{wmo_key_of};

use crate::key::{Key, Moment};
use crate::key_start::{KeyHead, KeyStart, StationStart};
use crate::packed_key::WmoWords;
use bufr_base::OutOfMemory;
use std::alloc::Global;
use std::cmp::Ordering;
use std::marker::Model;

/// A key, if there is one, and an update number, as a mark holds them.
#[derive(Drop)]
pub(crate) enum PackedForm {
    /// No key.
    Keyless {
        update: u8,
    },
    /// The key of a WMO station, with block and number of two octets each.
    Wmo {
        update: u8,
        sub_centre: u16,
        words: WmoWords,
    },
    /// A key with a mobile name, and its front.
    Mobile {
        update: u8,
        head: KeyHead,
        key: Box<Key>,
        name: [u8; 8],
    },
    /// Any other key.
    Other {
        update: u8,
        key: Box<Key>,
    },
}

/// A key of an entry, or none, with an update number, in 24 octets; longer keys take more.
#[derive(Drop)]
pub struct PackedSlot {
    form: PackedForm,
}

impl Model for PackedSlot {
    ghost use Rattle.bufr_entries.specs.Marks.{SlotView, mark_in, IsFronted};

    ghost Value = { SlotView };

    ghost view = { λ a. mark_in a.form };

    ghost invariant = { λ a. IsFronted a.form };
}

impl PackedForm {
    fn order_to(&self, key: &Key) -> Ordering
        ensures { (by_octets : Ordering) → result ≡ slot_by (mark_in self.now).key (Some key.now) by_octets }
    {
        match self {
            PackedForm::Keyless { .. } => Ordering::Greater,
            PackedForm::Wmo {
                sub_centre,
                words,
                ..
            } => words.key(*sub_centre).cmp(key),
            PackedForm::Mobile { key: own, .. } => (**own).cmp(key),
            PackedForm::Other { key: own, .. } => (**own).cmp(key),
        }
    }
}

impl PackedSlot {
    /// Makes a mark.
    pub fn new(alloc: Global, key: Option<Key>, update: u8) -> Result<PackedSlot, OutOfMemory>
        ensures { IfOk result (λ mark. mark ≡ record { key = key; update = update }) }
    {
        let Some(key) = key else {
            let form = PackedForm::Keyless { update };
            return Ok(PackedSlot { form });
        };
        if let Some(words) = WmoWords::of_key(&key) {
            let sub_centre = key.sub_centre;
            let form = PackedForm::Wmo {
                update,
                sub_centre,
                words,
            };
            return Ok(PackedSlot { form });
        }
        let KeyStart { head, place } = KeyStart::of_key(&key);
        let key = Box::new(alloc, key)?;
        let form = match place {
            StationStart::Mobile { name } => PackedForm::Mobile {
                update,
                head,
                key,
                name,
            },
            _ => PackedForm::Other { update, key },
        };
        Ok(PackedSlot { form })
    }

    /// Makes the mark of a WMO station's key from its parts.
    #[inline(always)]
    pub fn of_wmo(
        head: KeyHead,
        block: u16,
        number: u16,
        moment: Moment,
        sub_centre: u16,
        update: u8,
    ) -> PackedSlot
        ensures { result ≡ record {
          key = Some (wmo_key_of head block number moment sub_centre);
          update = update;
        } }
    {
        let words = WmoWords::of_parts(head, block, number, moment);
        let form = PackedForm::Wmo {
            update,
            sub_centre,
            words,
        };
        PackedSlot { form }
    }

    /// Returns the update number.
    pub fn update(&self) -> u8
        ensures { result ≡ self.now.update }
    {
        match &self.form {
            PackedForm::Keyless { update } => *update,
            PackedForm::Wmo { update, .. } => *update,
            PackedForm::Mobile { update, .. } => *update,
            PackedForm::Other { update, .. } => *update,
        }
    }

    /// Copies the key, if there is one.
    pub fn key(&self) -> Result<Option<Key>, OutOfMemory>
        ensures { IfOk result (λ key. key ≡ self.now.key) }
    {
        match &self.form {
            PackedForm::Keyless { .. } => Ok(None),
            PackedForm::Wmo {
                sub_centre,
                words,
                ..
            } => Ok(Some(words.key(*sub_centre))),
            PackedForm::Mobile { key, .. } => Ok(Some((**key).clone()?)),
            PackedForm::Other { key, .. } => Ok(Some((**key).clone()?)),
        }
    }

    /// Returns the packed key of a WMO station, without its sub-centre.
    #[inline(always)]
    pub(crate) fn words(&self) -> Option<WmoWords> {
        match &self.form {
            PackedForm::Wmo { words, .. } => Some(*words),
            _ => None,
        }
    }

    fn front(&self) -> Option<KeyStart>
        ensures { IfSome result (λ front. option_map front_of_key self.now.key ≡ Some front) }
    {
        match &self.form {
            PackedForm::Wmo { words, .. } => Some(words.front()),
            PackedForm::Mobile { head, name, .. } => Some(KeyStart {
                head: *head,
                place: StationStart::Mobile { name: *name },
            }),
            _ => None,
        }
    }

    /// Compares two slots by their fronts, if these decide.
    fn order_of_starts(&self, other: &PackedSlot) -> Option<Ordering>
        ensures { IfSome result (λ order. (by_octets : Ordering)
            → order ≡ slot_by self.now.key other.now.key by_octets) }
    {
        let (Some(front), Some(other_front)) = (self.front(), other.front()) else {
            return None;
        };
        match front.order(&other_front) {
            Ordering::Less => Some(Ordering::Less),
            Ordering::Equal => None,
            Ordering::Greater => Some(Ordering::Greater),
        }
    }

    /// Compares two slots that are not both packed keys; returns none if neither has a key.
    fn order_by_key(&self, other: &PackedSlot) -> Option<Ordering>
        ensures { MatchOption result ((self.now.key ≡ None) × (other.now.key ≡ None))
            (λ order. (by_octets : Ordering)
            → order ≡ slot_by self.now.key other.now.key by_octets) }
    {
        if let Some(order) = self.order_of_starts(other) {
            return Some(order);
        }
        match (&self.form, &other.form) {
            (PackedForm::Keyless { .. }, PackedForm::Keyless { .. }) => None,
            (_, PackedForm::Keyless { .. }) => Some(Ordering::Less),
            (
                form,
                PackedForm::Wmo {
                    sub_centre,
                    words,
                    ..
                },
            ) => Some(form.order_to(&words.key(*sub_centre))),
            (form, PackedForm::Mobile { key, .. }) => Some(form.order_to(&**key)),
            (form, PackedForm::Other { key, .. }) => Some(form.order_to(&**key)),
        }
    }

    /// Compares two slots without their octets; returns none if neither has a key.
    #[inline(always)]
    pub(crate) fn keyed_order(&self, other: &PackedSlot) -> Option<Ordering>
        ensures { MatchOption result ((self.now.key ≡ None) × (other.now.key ≡ None))
            (λ order. (by_octets : Ordering)
            → order ≡ slot_by self.now.key other.now.key by_octets) }
    {
        let PackedForm::Wmo {
            sub_centre,
            words,
            ..
        } = &self.form
        else {
            return self.order_by_key(other);
        };
        let PackedForm::Wmo {
            sub_centre: other_sub_centre,
            words: other_words,
            ..
        } = &other.form
        else {
            return self.order_by_key(other);
        };
        Some(words.order(*sub_centre, *other_words, *other_sub_centre))
    }

    /// Compares the slots of two entries with these octets.
    #[inline(always)]
    pub fn slot_order(&self, bytes: &[u8], other: &PackedSlot, other_bytes: &[u8]) -> Ordering
        ensures { let by_octets = octets_cmp bytes.now other_bytes.now in
            result ≡ slot_by self.now.key other.now.key by_octets }
    {
        match self.keyed_order(other) {
            Some(order) => order,
            None => bytes.cmp(other_bytes),
        }
    }
}

const _: () = prove!(size_of::<PackedSlot>() == 24);
