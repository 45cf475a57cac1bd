ghost use Rattle.std.specs.Prelude.{◌≡◌, ◌∷◌, [], Some, None, pos, negsuc, true, false, map, codes};
ghost use Rattle.std.specs.declared.cmp.Ordering.TheVariants.{Less, Equal, Greater};
ghost use Rattle.bufr_entries.specs.declared.key.Station.TheVariants.{Mobile, Wmo};
ghost use Rattle.bufr_entries.specs.KeyOrders.{octets_cmp, station_cmp, moment_cmp, key_cmp};
ghost use Rattle.bufr_entries.specs.Entries.{coarse_key_cmp, slot_by, rank_cmp, slot_cmp, kept, changes, entry_at, entry_after};
ghost use Rattle.bufr_entries.specs.Keeping.{first_of};
ghost use Rattle.bufr_entries.specs.PackedKeys.{wmo_key};
ghost use Rattle.bufr_entries.specs.Fronts.{front_cmp, front_of_key, first_octets, place_of_station};
ghost use Rattle.bufr_entries.specs.declared.key_start.StationStart.TheVariants as places;
ghost use Rattle.bufr_entries.specs.Samples.{orders, turned, time, moments_by_part, wmo, stations_by_part, stations_by_kind, key_of, keys_by_part, entry, gathered, held};

/// The order of keys: the first part that differs decides, whatever follows it.
pub fn keys()
    ensures parts { orders key_cmp keys_by_part
        ≡ Less ∷ Less ∷ Less ∷ Less ∷ Less ∷ Less ∷ Less ∷ [] }
    ensures turned { orders key_cmp (turned keys_by_part)
        ≡ Greater ∷ Greater ∷ Greater ∷ Greater ∷ Greater ∷ Greater ∷ Greater ∷ [] }
    ensures same { key_cmp (key_of 1 2 3 4 5 6 7) (key_of 1 2 3 4 5 6 7) ≡ Equal }
{}

/// The order of stations, of moments and of octets.
pub fn stations_and_moments()
    ensures stations { orders station_cmp stations_by_part
        ≡ Less ∷ Less ∷ Less ∷ Less ∷ Less ∷ Less ∷ Less ∷ [] }
    ensures stations_turned { orders station_cmp (turned stations_by_part)
        ≡ Greater ∷ Greater ∷ Greater ∷ Greater ∷ Greater ∷ Greater ∷ Greater ∷ [] }
    ensures kinds { orders station_cmp stations_by_kind ≡ Less ∷ Less ∷ Less ∷ [] }
    ensures kinds_turned { orders station_cmp (turned stations_by_kind)
        ≡ Greater ∷ Greater ∷ Greater ∷ [] }
    ensures ninth_octet { station_cmp (Mobile (codes "ABCDEFGHI")) (Mobile (codes "ABCDEFGHJ"))
        ≡ Less }
    ensures below_0 { station_cmp (Wmo (negsuc 0) (pos 9)) (wmo 0 0) ≡ Less }
    ensures moments { orders moment_cmp moments_by_part
        ≡ Less ∷ Less ∷ Less ∷ Less ∷ Less ∷ Less ∷ [] }
    ensures moments_turned { orders moment_cmp (turned moments_by_part)
        ≡ Greater ∷ Greater ∷ Greater ∷ Greater ∷ Greater ∷ Greater ∷ [] }
    ensures octets { orders octets_cmp ((codes "AB", codes "ABC") ∷ (codes "ABC", codes "AC")
        ∷ ([], 0 ∷ []) ∷ (127 ∷ 9 ∷ [], 255 ∷ []) ∷ (codes "AB", codes "AB") ∷ [])
        ≡ Less ∷ Less ∷ Less ∷ Less ∷ Equal ∷ [] }
{}

/// The order of slots and ranks.
pub fn slots_and_ranks()
    ensures without_sub_centre { orders coarse_key_cmp keys_by_part
        ≡ Less ∷ Less ∷ Less ∷ Less ∷ Less ∷ Less ∷ Equal ∷ [] }
    ensures keys_first { slot_by (Some (key_of 9 9 9 9 9 9 9)) None Greater ≡ Less }
    ensures octets_after { slot_by None (Some (key_of 0 0 0 0 0 0 0)) Less ≡ Greater }
    ensures by_key { slot_by (Some (key_of 1 9 9 9 9 9 9)) (Some (key_of 2 0 0 0 0 0 0)) Greater
        ≡ Less }
    ensures by_octets { map (slot_by None None) (Less ∷ Equal ∷ Greater ∷ [])
        ≡ Less ∷ Equal ∷ Greater ∷ [] }
    ensures no_update { slot_cmp (entry None 1 (codes "A")) (entry None 2 (codes "A")) ≡ Equal }
    ensures no_octets { slot_cmp (entry (Some 3) 1 (codes "A")) (entry (Some 3) 1 (codes "B"))
        ≡ Equal }
    ensures update { rank_cmp (entry None 9 (codes "Z")) (entry None 10 (codes "A")) ≡ Less }
    ensures high_update { rank_cmp (entry None 127 (codes "Z")) (entry None 128 (codes "A")) ≡ Less }
    ensures rank_octets { rank_cmp (entry None 9 (codes "A")) (entry None 9 (codes "AB")) ≡ Less }
    ensures no_key { rank_cmp (entry (Some 9) 9 (codes "A")) (entry (Some 3) 9 (codes "A"))
        ≡ Equal }
{}

/// What a shelf keeps, what changes it, and what look-ups find.
pub fn keeping()
    ensures kept { kept gathered ≡ held }
    ensures changes { map (changes held) (entry (Some 7) 10 (codes "AC")
        ∷ entry (Some 7) 11 (codes "A") ∷ entry (Some 4) 0 [] ∷ entry None 3 (codes "A")
        ∷ entry None 0 (codes "C") ∷ []) ≡ true ∷ true ∷ true ∷ true ∷ true ∷ [] }
    ensures no_change { map (changes held) (entry (Some 7) 10 (codes "AB")
        ∷ entry (Some 7) 9 (codes "Z") ∷ entry (Some 3) 0 (codes "B") ∷ entry None 1 (codes "B")
        ∷ []) ≡ false ∷ false ∷ false ∷ false ∷ [] }
    ensures found { entry_at held (key_of 98 2 0 37 7 12 0)
        ≡ Some (entry (Some 7) 10 (codes "AB")) }
    ensures not_found { entry_at held (key_of 98 2 0 37 7 12 1) ≡ None }
    ensures first { first_of held ≡ Some (entry (Some 3) 0 (codes "C")) }
    ensures next { map (entry_after held) (entry (Some 2) 0 [] ∷ entry (Some 3) 0 []
        ∷ entry (Some 9) 0 [] ∷ entry None 9 (codes "B") ∷ [])
        ≡ Some (entry (Some 3) 0 (codes "C")) ∷ Some (entry (Some 7) 10 (codes "AB"))
        ∷ Some (entry None 0 (codes "A")) ∷ None ∷ [] }
{}

/// The bits of each part of a packed key.
pub fn packed_keys()
    ensures parts { wmo_key (record { high = 0x0102_03_04_05_0607_08; low = 0x09_0A0B_0C_0D_0E_0F_10 }) 17
        ≡ record {
          centre = 258;
          category = 3;
          international = 4;
          local_category = 5;
          station = wmo 1543 2057;
          moment = time 2571 12 13 14 15 16;
          sub_centre = 17;
        } }
{}

/// The octets of a name in a front; keys with equal fronts leave their order open.
pub fn fronts()
    ensures short { first_octets 8 (codes "AB") ≡ 65 ∷ 66 ∷ 0 ∷ 0 ∷ 0 ∷ 0 ∷ 0 ∷ 0 ∷ [] }
    ensures long { first_octets 8 (codes "ABCDEFGHIJ") ≡ codes "ABCDEFGH" }
    ensures name { place_of_station (Mobile (codes "ABCDEFGHIJ"))
        ≡ places.Mobile (codes "ABCDEFGH") }
    ensures parts { orders (λ a b. front_cmp (front_of_key a) (front_of_key b)) keys_by_part
        ≡ Less ∷ Less ∷ Less ∷ Less ∷ Equal ∷ Equal ∷ Equal ∷ [] }
{}
