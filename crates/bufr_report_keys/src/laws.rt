//! Laws of keys, as contracts of functions without a body.
ghost use Rattle.bufr_report_keys.specs.Laws.{UsableNumbersAre, UsableNumbersOnly, UsableTextsAre, UsableTextsOnly, MomentsAreSaid, SaidMomentsAre};

/// A number is usable exactly if its field is not missing, no text and of scale 0; a text exactly
/// if its field is not missing, of kind Text and more than blanks.
pub fn usable_values()
    ensures numbers { UsableNumbersAre }
    ensures numbers_only { UsableNumbersOnly }
    ensures texts { UsableTextsAre }
    ensures texts_only { UsableTextsOnly }
{}

/// A moment has the fields' year, month, day, hour, minute and second: a date of the civil calendar
/// and an hour from 0 to 23.
pub fn moments_are_dates()
    ensures are { MomentsAreSaid }
    ensures only { SaidMomentsAre }
{}
