//! Messages of frames, added to an archive.
ghost use Rattle.std.specs.Prelude.{◌≡◌, ◌<◌, ◌≤◌, ◌^◌, ℕ, IfOk, Err};
ghost use Rattle.bufr_archive.specs.Adding.{AddsMessage};
ghost use Rattle.bufr_gather.specs.declared.add_fault.AddFault.TheVariants.{OutOfMemory as AddRanOut};
ghost use Rattle.bufr_archive.specs.HeldSteps.{AddsAllFrames, fed_of, ended_of};

use crate::adding::Added;
use crate::archive::{Archive, archive_is_kept};
use crate::steps::Answer;
use bufr_frame::Found;
use bufr_gather::{AddFault, RanOut};
use bufr_message::laws::messages_are_spelt;
use bufr_shelves::Shelf;

/// A count of the frames with a message, the frames without one, and the reports that changed the
/// archive.
#[derive(Clone, Copy, Drop)]
pub(crate) struct Counts {
    pub(crate) messages: u128,
    pub(crate) refused: u128,
    pub(crate) changed: u128,
}

impl Counts {
    pub(crate) fn fed(self) -> Answer
        ensures { result ≡ fed_of self }
    {
        Answer::Fed {
            messages: self.messages,
            refused: self.refused,
            changed: self.changed,
        }
    }

    pub(crate) fn ended(self) -> Answer
        ensures { result ≡ ended_of self }
    {
        Answer::Ended {
            messages: self.messages,
            refused: self.refused,
            changed: self.changed,
        }
    }
}

/// Adds the reports of a message: fewer than 2^16.
fn add_octets<S: Shelf>(archive: &mut Archive<S>, octets: &[u8]) -> Result<Added, AddFault>
    ensures adds { AddsMessage archive.old archive.new octets.now result }
    ensures reports { IfOk result (λ added. added.reports < 2 ^ 16) }
    ensures changed { IfOk result (λ added. added.changed ≤ added.reports) }
    ensures done { (k : ℕ) → result ≡ Err (AddRanOut k) → k < 2 ^ 16 }
{
    messages_are_spelt();
    archive.add_message(octets)
}

/// Adds the messages of frames; if memory runs out, the first `done` reports.
pub(crate) fn add_frames<S: Shelf>(
    archive: &mut Archive<S>,
    frames: &[Found],
) -> Result<Counts, RanOut>
    ensures adds { AddsAllFrames archive.old archive.new frames.now result }
    ensures tables { archive.new.tables ≡ archive.old.tables }
{
    archive_is_kept(archive);
    let mut counts = Counts {
        messages: 0,
        refused: 0,
        changed: 0,
    };
    let mut joined: u128 = 0;
    for frame in frames {
        match add_octets(archive, frame.bytes.as_slice()) {
            Ok(added) => {
                counts.messages += 1;
                counts.changed += added.changed;
                joined += added.reports;
            }
            Err(AddFault::Refused(_)) => counts.refused += 1,
            Err(AddFault::OutOfMemory { done }) => {
                return Err(RanOut {
                    done: joined + done,
                });
            }
        }
    }
    Ok(counts)
}
