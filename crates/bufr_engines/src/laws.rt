//! Laws of the engines.

ghost use Rattle.bufr_engines.specs.Laws.{AnyWayWritesTheSame, SharedOutAnyhow};

use bufr_gather::laws::{reports_told_are_under, same_messages_same_kept, texts_are_cut_apart};

/// Streams may be shared out among archives in any way, before these are merged.
pub fn streams_are_shared_out_anyhow()
    ensures { SharedOutAnyhow }
{
    texts_are_cut_apart();
}

/// Any two ways to add and merge files write the same octets if the streams hold the same messages:
/// the headline for `run_add` and `run_merge`.
pub fn any_way_writes_the_same()
    ensures { AnyWayWritesTheSame }
{
    texts_are_cut_apart();
    reports_told_are_under();
    same_messages_same_kept();
}
