ghost use Rattle.std.specs.Prelude.{◌≡◌};
ghost use Rattle.std.specs.declared.cmp.Ordering.TheVariants.{Equal};

use bufr_base::Items;
use bufr_entries::Key;

/// A rank of an entry with a key: the update number, and then the octets. The derived order follows
/// the order of the fields.
#[derive(Clone, Drop, PartialEq, Eq, PartialOrd, Ord)]
pub(crate) struct Rank {
    pub(crate) update: u8,
    pub(crate) bytes: Items<u8>,
}

/// A type with values that tie only if they are equal, and with clones that equal their sources.
pub(crate) trait Exact: Ord + Clone + Drop {
    ghost exact: { (a b : Self) → Self.cmp a b ≡ Equal → a ≡ b };

    ghost faithful: { (a b : Self) → Self.is_clone a b → b ≡ a };
}

impl Exact for u8 {
    ghost use Rattle.std.proofs.lemmas.Map.Lookups.{exact_unsigned};

    ghost exact = { exact_unsigned };

    ghost faithful = { λ a b h. h };
}

impl Exact for Items<u8> {
    ghost use Rattle.std.proofs.lemmas.Map.Lookups.{exact_bytes};

    ghost exact = { exact_bytes };

    ghost faithful = { λ a b h. h };
}

impl Exact for Rank {
    ghost use Rattle.bufr_shelves.specs.Ranks.{exact_ranks, same_ranks};

    ghost exact = { exact_ranks };

    ghost faithful = { λ a b h. same_ranks a b h.0 h.1 };
}

impl Exact for Key {
    ghost use Rattle.std.proofs.Common.{sym, refl, ◌∙◌, ap};
    ghost use Rattle.bufr_entries.specs.KeyOrders.{key_cmp};
    ghost use Rattle.bufr_entries.specs.Orders.{exact_keys};
    ghost use Rattle.bufr_entries.specs.DerivedOrders.{stations_are, same_stations};

    ghost exact = { λ a b h.
        let e : Self.cmp a b ≡ key_cmp a b = rw (stations_are a.station b.station) refl in
        exact_keys a b (sym e ∙ h) };

    ghost faithful = { λ a b h.
        ap (λ z. record b { centre = z }) h.0
        ∙ ap (λ z. record b { centre = a.centre; category = z }) h.1.0
        ∙ ap (λ z. record b { centre = a.centre; category = a.category; international = z }) h.1.1.0
        ∙ ap (λ z. record b {
          centre = a.centre;
          category = a.category;
          international = a.international;
          local_category = z;
        }) h.1.1.1.0
        ∙ ap (λ z. record a { station = z; moment = b.moment; sub_centre = b.sub_centre })
        (same_stations a.station b.station h.1.1.1.1.0)
        ∙ ap (λ z. record a { moment = z; sub_centre = b.sub_centre }) h.1.1.1.1.1.0
        ∙ ap (λ z. record a { sub_centre = z }) h.1.1.1.1.1.1 };
}
