//! Laws of archives and depots.
ghost use Rattle.std.specs.Prelude.{◌≡◌};
ghost use Rattle.bufr_tables.specs.Entries.{Entries};
ghost use Rattle.bufr_message.specs.Laws.{MessagesWrittenAreRead};
ghost use Rattle.bufr_archive.specs.Laws.{MergeCommutes, MergeAssociates, MergeIsIdempotent, MergedIsKept};
ghost use Rattle.bufr_archive.specs.Headline.{Headline};
ghost use Rattle.bufr_archive.specs.Agreements.{TookExactly, KeepsWhatWasTold, Converges, RepeatCompletes, RunsJoin};

pub use bufr_gather::laws::{
    reports_are_entries, reports_told_are_under, same_messages_same_kept, texts_are_cut_apart,
    texts_from_before, told_are_of_messages,
};
use bufr_message::laws::written_messages_are_spelt;

/// Merges under the same tables are commutative, associative and idempotent.
pub fn merges_agree()
    ensures commutes { MergeCommutes }
    ensures associates { MergeAssociates }
    ensures idempotent { MergeIsIdempotent }
    ensures kept { MergedIsKept }
{}

/// The headline: two archives under the same tables hold the same reports and write the same octets
/// if their ended streams hold the same set of messages, in any pieces, in any order, with repeats,
/// and through any merges, copies and transfers. Merge is commutative, associative and idempotent,
/// and an encoded message decodes to its values.
///
/// It speaks of two new depots after `Depot::run`; [`run_both`](crate::run_both) of two calls.
pub fn headline()
    ensures converges { Headline }
    ensures commutes { MergeCommutes }
    ensures associates { MergeAssociates }
    ensures idempotent { MergeIsIdempotent }
    ensures decodes { MessagesWrittenAreRead }
{
    merges_agree();
    written_messages_are_spelt();
}

/// Archives agree if their ended streams hold the same messages. A slot has exactly the reports of
/// its ended streams and of the sure frames of its open one.
pub fn archives_converge()
    ensures converges { (tables : Entries) → Converges tables }
    ensures keeps { (tables : Entries) → KeepsWhatWasTold tables }
    ensures exactly { (tables : Entries) → TookExactly tables }
{}

/// A repeated step completes one that ran out of memory.
pub fn repeated_steps_complete()
    ensures { (tables : Entries) → RepeatCompletes tables }
{}

/// A run of two lists of steps is a run of the one and then of the other.
pub fn runs_join()
    ensures { (tables : Entries) → RunsJoin tables }
{}
