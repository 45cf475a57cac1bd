//! Worked examples of the definitions.
ghost use Rattle.std.specs.Prelude.{◌≡◌, ◌++◌, ◌∷◌, [], Some, None, true, false, pos, negsuc, filter, map, replicate, codes};
ghost use Rattle.std.specs.List.{range_with_len};
ghost use Rattle.bufr_report_keys.specs.Usable.{is_blank, without_last_blanks};
ghost use Rattle.bufr_report_keys.specs.Keys.{station, moment, key};
ghost use Rattle.bufr_tables.specs.Descriptors.{descriptor};
ghost use Rattle.bufr_tables.specs.declared.element.Kind.TheVariants as kinds;
ghost use Rattle.bufr_report_keys.specs.Samples.{number_field, scaled_field, text_field, missing_field, date_fields, block_and_station, wigos_fields, wigos_station, minute_and_second, noon, time, head_98, key_at_noon, beside, wmo_10384, named, field_of, of_block, of_number, wigos_with, is_date, last_days, days_behind, is_time};

use crate::elements::{
    BLOCK_NUMBER, DAY, HOUR, MINUTE, MOBILE_IDENTIFIER, MONTH, SECOND, STATION_NUMBER,
    WIGOS_ISSUE_NUMBER, WIGOS_ISSUER, WIGOS_LOCAL_IDENTIFIER, WIGOS_SERIES, YEAR,
};
use bufr_entries::Station;

/// Stations: WMO, WIGOS and mobile.
pub fn stations()
    ensures wmo { station block_and_station ≡ Some (Station.Wmo (pos 10) (pos 384)) }
    ensures wigos { station wigos_fields ≡ Some wigos_station }
    ensures both { station (wigos_fields ++ block_and_station)
        ≡ Some (Station.Wmo (pos 10) (pos 384)) }
    ensures block_missing { station (missing_field 1 1 ∷ number_field 1 2 384 ∷ wigos_fields)
        ≡ Some wigos_station }
    ensures first_counts { station (missing_field 1 1 ∷ block_and_station) ≡ None }
    ensures name { station (text_field 1 11 (codes "AB  C    ") ∷ [])
        ≡ Some (Station.Mobile (codes "AB  C")) }
    ensures blank { station (text_field 1 11 (codes "         ") ∷ []) ≡ None }
    ensures nul { without_last_blanks (65 ∷ 0 ∷ 32 ∷ 0 ∷ []) ≡ 65 ∷ [] }
    ensures scaled { station (scaled_field 1 1 10 ∷ number_field 1 2 384 ∷ []) ≡ None }
{}

/// Stations side by side, each usable or not: WMO before WIGOS before mobile, in any order of
/// fields.
pub fn kinds_of_stations()
    ensures all { station (beside true true true) ∷ station (beside true true false)
        ∷ station (beside true false true) ∷ station (beside true false false)
        ∷ station (beside false true true) ∷ station (beside false true false)
        ∷ station (beside false false true) ∷ station (beside false false false) ∷ []
        ≡ Some wmo_10384 ∷ Some wmo_10384 ∷ Some wmo_10384 ∷ Some wmo_10384
        ∷ Some wigos_station ∷ Some wigos_station ∷ Some (named (codes "SHIP")) ∷ None ∷ [] }
    ensures mobile_behind { station (block_and_station ++ wigos_fields
        ++ text_field 1 11 (codes "SHIP     ") ∷ []) ≡ Some wmo_10384 }
    ensures mobile_behind_wigos { station (wigos_fields
        ++ text_field 1 11 (codes "SHIP     ") ∷ []) ≡ Some wigos_station }
{}

/// Parts of stations: the fields that count.
pub fn parts_of_stations()
    ensures blocks { map of_block (number_field 1 1 10 ∷ field_of kinds.Code (pos 0) 1 1 10
        ∷ field_of kinds.Flag (pos 0) 1 1 10 ∷ field_of kinds.Quantity (pos 4) 1 1 6
        ∷ field_of kinds.Quantity (negsuc 1) 1 1 12 ∷ [])
        ≡ Some wmo_10384 ∷ Some wmo_10384 ∷ Some wmo_10384 ∷ Some wmo_10384 ∷ Some wmo_10384
        ∷ [] }
    ensures no_blocks { map of_block (missing_field 1 1 ∷ scaled_field 1 1 10
        ∷ text_field 1 1 (codes "10") ∷ number_field 1 3 10 ∷ number_field 2 1 10 ∷ [])
        ≡ None ∷ None ∷ None ∷ None ∷ None ∷ [] }
    ensures no_numbers { map of_number (missing_field 1 2 ∷ scaled_field 1 2 384
        ∷ text_field 1 2 (codes "384") ∷ number_field 1 3 384 ∷ number_field 2 2 384 ∷ [])
        ≡ None ∷ None ∷ None ∷ None ∷ None ∷ [] }
    ensures wigos { wigos_with (missing_field 1 125) (number_field 1 126 2) (number_field 1 127 3)
        (text_field 1 128 (codes "4"))
        ∷ wigos_with (number_field 1 125 1) (missing_field 1 126) (number_field 1 127 3)
        (text_field 1 128 (codes "4"))
        ∷ wigos_with (number_field 1 125 1) (number_field 1 126 2) (scaled_field 1 127 3)
        (text_field 1 128 (codes "4"))
        ∷ wigos_with (number_field 1 125 1) (number_field 1 126 2) (number_field 1 127 3)
        (text_field 1 128 (codes " "))
        ∷ wigos_with (number_field 1 125 1) (number_field 1 126 2) (number_field 1 127 3)
        (number_field 1 128 4) ∷ []
        ≡ None ∷ None ∷ None ∷ None ∷ None ∷ [] }
    ensures missing_name { station (text_field 1 11 (replicate 9 255) ∷ []) ≡ None }
    ensures first_name { station (text_field 1 11 (codes "  ")
        ∷ text_field 1 11 (codes "SHIP") ∷ []) ≡ None }
    ensures other_names { station (text_field 1 8 (codes "SHIP")
        ∷ text_field 1 12 (codes "SHIP") ∷ []) ≡ None }
{}

/// Blanks at the end of a text: spaces and NULs only.
pub fn blanks()
    ensures blank { map without_last_blanks ((65 ∷ 32 ∷ []) ∷ (65 ∷ 0 ∷ []) ∷ (65 ∷ 0 ∷ 32 ∷ [])
        ∷ (32 ∷ 0 ∷ []) ∷ []) ≡ (65 ∷ []) ∷ (65 ∷ []) ∷ (65 ∷ []) ∷ [] ∷ [] }
    ensures tab { without_last_blanks (65 ∷ 32 ∷ 9 ∷ []) ≡ 65 ∷ 32 ∷ 9 ∷ [] }
    ensures others { map is_blank (0 ∷ 1 ∷ 9 ∷ 10 ∷ 13 ∷ 31 ∷ 32 ∷ 33 ∷ 48 ∷ 127 ∷ 160 ∷ 255 ∷ [])
        ≡ true ∷ false ∷ false ∷ false ∷ false ∷ false ∷ true ∷ false ∷ false ∷ false ∷ false
        ∷ false ∷ [] }
    ensures of_all_octets { filter is_blank (range_with_len 0 256) ≡ 0 ∷ 32 ∷ [] }
    ensures first_and_inner { without_last_blanks (32 ∷ 65 ∷ 32 ∷ 66 ∷ 32 ∷ [])
        ≡ 32 ∷ 65 ∷ 32 ∷ 66 ∷ [] }
{}

/// Dates and times at both sides of each bound.
pub fn bounds()
    ensures last_days { map is_date last_days
        ≡ true ∷ true ∷ true ∷ true ∷ true ∷ true ∷ true ∷ true ∷ true ∷ true ∷ true ∷ true ∷ true
        ∷ true ∷ true ∷ [] }
    ensures days_behind { map is_date days_behind
        ≡ false ∷ false ∷ false ∷ false ∷ false ∷ false ∷ false ∷ false ∷ false ∷ false ∷ false
        ∷ false ∷ false ∷ false ∷ false ∷ [] }
    ensures dates { map is_date ((1, 1, 1) ∷ (9999, 12, 31) ∷ (0, 12, 31) ∷ (10000, 1, 1)
        ∷ (2024, 0, 15) ∷ (2024, 13, 15) ∷ (2024, 1, 0) ∷ (2100, 2, 29) ∷ [])
        ≡ true ∷ true ∷ false ∷ false ∷ false ∷ false ∷ false ∷ false ∷ [] }
    ensures times { map is_time ((0, 0, 0) ∷ (23, 59, 59) ∷ (24, 0, 0) ∷ (0, 60, 0) ∷ (0, 0, 60)
        ∷ []) ≡ true ∷ true ∷ false ∷ false ∷ false ∷ [] }
    ensures none_said { moment (date_fields 2024 1 15 12) ≡ Some (time 2024 1 15 12 0 0) }
    ensures minute_alone { moment (date_fields 2024 1 15 12 ++ number_field 4 5 30 ∷ [])
        ≡ Some (time 2024 1 15 12 30 0) }
    ensures second_alone { moment (date_fields 2024 1 15 12 ++ number_field 4 6 30 ∷ [])
        ≡ Some (time 2024 1 15 12 0 30) }
    ensures year_missing { moment (missing_field 4 1 ∷ date_fields 2024 1 15 12) ≡ None }
    ensures below_0 { moment (date_fields 2024 1 15 12
        ++ field_of kinds.Quantity (negsuc 0) 4 5 0 ∷ []) ≡ None }
{}

/// Moments: a real date, an hour, and a minute and second or none.
pub fn moments()
    ensures noon { moment (date_fields 2024 1 15 12) ≡ Some noon }
    ensures leap_day { moment (date_fields 2024 2 29 0) ≡ Some (time 2024 2 29 0 0 0) }
    ensures no_leap_day { moment (date_fields 1900 2 29 0) ≡ None }
    ensures february_30 { moment (date_fields 2024 2 30 0) ≡ None }
    ensures april_31 { moment (date_fields 2024 4 31 0) ≡ None }
    ensures year_0 { moment (date_fields 0 1 1 0) ≡ None }
    ensures year_1 { moment (date_fields 1 1 1 23) ≡ Some (time 1 1 1 23 0 0) }
    ensures year_10000 { moment (date_fields 10000 1 1 0) ≡ None }
    ensures hour_24 { moment (date_fields 2024 1 15 24) ≡ None }
    ensures to_the_second { moment (minute_and_second (number_field 4 5 59) (number_field 4 6 58))
        ≡ Some (time 2024 1 15 12 59 58) }
    ensures second_60 { moment (minute_and_second (number_field 4 5 59) (number_field 4 6 60))
        ≡ None }
    ensures minute_missing { moment (minute_and_second (missing_field 4 5) (number_field 4 6 5))
        ≡ Some (time 2024 1 15 12 0 5) }
{}

/// Keys: a station and a moment, and the parts of the head.
pub fn keys()
    ensures both { key head_98 (block_and_station ++ date_fields 2024 1 15 12) ≡ Some key_at_noon }
    ensures no_station { key head_98 (date_fields 2024 1 15 12) ≡ None }
    ensures no_moment { key head_98 (block_and_station ++ date_fields 2024 13 15 12) ≡ None }
{}

/// The elements that say a station or a time, by X and Y.
pub fn elements()
    ensures stations { BLOCK_NUMBER ∷ STATION_NUMBER ∷ MOBILE_IDENTIFIER ∷ WIGOS_SERIES
        ∷ WIGOS_ISSUER ∷ WIGOS_ISSUE_NUMBER ∷ WIGOS_LOCAL_IDENTIFIER ∷ []
        ≡ map (descriptor 0 1) (1 ∷ 2 ∷ 11 ∷ 125 ∷ 126 ∷ 127 ∷ 128 ∷ []) }
    ensures times { YEAR ∷ MONTH ∷ DAY ∷ HOUR ∷ MINUTE ∷ SECOND ∷ []
        ≡ map (descriptor 0 4) (1 ∷ 2 ∷ 3 ∷ 4 ∷ 5 ∷ 6 ∷ []) }
{}
