//! Laws of the texts of archives and of streams.
ghost use Rattle.bufr_gather.specs.StreamsTold.{SameMessagesSameKept, ReportsToldAreUnder};
ghost use Rattle.bufr_gather.specs.ReportLaws.{ReportsAreEntries, FramesOfReports, FramesOfReportFronts, ReportTextsTell, BreaksAreSingle, TextsAreWhole, TextsFromBefore, FromBeforeAreTexts, KeptBeforeIsTheBest, ToldAreTold, OnlyToldAreTold};

use bufr_entries::laws::sorted_are_kept;
use bufr_frame::laws::{cut_is_taken_from_the_left, joined_frames_are_cut_apart};
use bufr_message::laws::{
    canonical_messages_are_reports, messages_are_spelt, reports_have_canonical_messages,
    written_messages_are_spelt,
};

/// Each report's entry is found in its own octets and in no others, and these are one frame.
pub fn reports_are_entries()
    ensures { ReportsAreEntries }
{
    messages_are_spelt();
    written_messages_are_spelt();
    canonical_messages_are_reports();
    reports_have_canonical_messages();
}

/// The frames of a text are its canonical messages in order, whatever their character data hold. A
/// text read as a stream has the reports of the archive.
pub fn texts_are_cut_apart()
    ensures frames { FramesOfReports }
    ensures fronts { FramesOfReportFronts }
    ensures told { ReportTextsTell }
{
    joined_frames_are_cut_apart();
    reports_are_entries();
    written_messages_are_spelt();
    canonical_messages_are_reports();
}

/// Octets break at no two places, and a text breaks nowhere.
pub fn texts_break_at_one_place()
    ensures single { BreaksAreSingle }
    ensures whole { TextsAreWhole }
{}

/// A text written while keys had no sub-centre is the text of the reports kept then, so reading
/// takes it.
pub fn texts_from_before()
    ensures kept { TextsFromBefore }
    ensures texts { FromBeforeAreTexts }
    ensures best { KeptBeforeIsTheBest }
{
    reports_are_entries();
    written_messages_are_spelt();
    sorted_are_kept();
}

/// The reports of a stream are exactly those of the messages that its frames spell.
pub fn told_are_of_messages()
    ensures are { ToldAreTold }
    ensures only { OnlyToldAreTold }
{
    cut_is_taken_from_the_left();
    messages_are_spelt();
}

/// Of two streams with the same messages an archive keeps the same reports.
pub fn same_messages_same_kept()
    ensures { SameMessagesSameKept }
{}

/// The reports of a stream are reports under the tables: each has its canonical message.
pub fn reports_told_are_under()
    ensures { ReportsToldAreUnder }
{
    cut_is_taken_from_the_left();
    messages_are_spelt();
    reports_have_canonical_messages();
}
