ghost use Rattle.std.specs.Prelude.{◌≡◌, ◌+◌, ◌∷◌, [], Err, Some, false, length, true};
ghost use Rattle.bufr_tables.specs.Entries.{Entries};
ghost use Rattle.bufr_gather.specs.Archives.{ArchiveView};
ghost use Rattle.bufr_archive.specs.Holdings.{DepotView};
ghost use Rattle.bufr_archive.specs.Headline.{archive_at, TookIn};
ghost use Rattle.bufr_archive.specs.Samples.{run};
ghost use Rattle.bufr_archive.specs.Runs.{are_too_many};
ghost use Rattle.bufr_archive.specs.declared.steps.StepFault.TheVariants.{StreamTooLong};

use crate::intakes::Intake;
use crate::steps::{Answer, StepFault};
use bufr_shelves::Shelf;

/// The longest stream: 2^64 - 1 octets, which is 18,446,744,073,709,551,615.
pub fn longest_streams()
    ensures longest { are_too_many 18446744073709551615 0 ≡ false }
    ensures piece_fits { are_too_many 18446744073709551610 5 ≡ false }
    ensures piece_too_long { are_too_many 18446744073709551610 6 ≡ true }
    ensures one_more { are_too_many 18446744073709551615 1 ≡ true }
    ensures no_piece { are_too_many 0 0 ≡ false }
{}

/// The premises of the headline hold of a run in which a step was refused and repeated, and a slot
/// took in another while its own stream was open. It then has the ended streams of both.
pub fn premises_of_the_headline()
    ensures { (tables : Entries) (left : DepotView) (archive : ArchiveView)
        → archive_at left 1 ≡ Some archive
        → TookIn (run tables left) 1 archive ((65 ∷ []) ∷ (67 ∷ []) ∷ []) }
{}

/// Feeds a stream one octet beyond its octet 2^64 - 1: it is too long, and nothing is joined.
pub(crate) fn one_octet_too_many<S: Shelf>(
    intake: &mut Intake<'_, S>,
    piece: &[u8],
) -> Result<Answer, StepFault>
    requires { intake.old.framer.fed + length piece.now ≡ 18446744073709551616 }
    ensures told { result ≡ Err StreamTooLong }
    ensures kept { intake.new ≡ intake.old }
{
    intake.feed(piece)
}
