ghost use Rattle.std.specs.Prelude.{◌≡◌, []};
ghost use Rattle.bufr_gather.specs.Archives.{IsKept};
ghost use Rattle.bufr_frame.specs.Looks.{new_framing};
ghost use Rattle.bufr_archive.specs.HeldSteps.{Feeds, Ends};

use crate::archive::{Archive, archive_is_kept};
use crate::counts::add_frames;
use crate::steps::{Answer, StepFault};
use bufr_frame::Framer;
use bufr_gather::RanOut;
use bufr_shelves::Shelf;
use bufr_tables::Tables;
use std::alloc::Global;
use std::marker::Model;

/// An archive, and the framer of its stream.
#[derive(Drop)]
pub(crate) struct Intake<'t, S: Shelf> {
    pub(crate) archive: Archive<'t, S>,
    pub(crate) framer: Framer,
}

impl<'t, S: Shelf> Model for Intake<'t, S> {
    ghost use Rattle.bufr_archive.specs.Holdings.{Holding};

    ghost Value = { Holding };

    ghost view = { λ i. record { archive = i.archive; framer = i.framer } };
}

impl<'t, S: Shelf> Intake<'t, S> {
    pub(crate) fn new(alloc: Global, tables: &'t Tables) -> Self
        ensures { result ≡ record {
          archive = record { tables = tables.now; entries = [] };
          framer = new_framing;
        } }
    {
        Intake {
            archive: Archive::new(alloc, tables),
            framer: Framer::new(alloc),
        }
    }

    /// Takes in a piece of the stream, and adds the messages of the frames that are sure now.
    pub(crate) fn feed(&mut self, piece: &[u8]) -> Result<Answer, StepFault>
        ensures feeds { Feeds self.old self.new piece.now result }
        ensures tables { self.new.archive.tables ≡ self.old.archive.tables }
    {
        archive_is_kept(&self.archive);
        if piece.len() as u64 > u64::MAX - self.framer.fed() {
            return Err(StepFault::StreamTooLong);
        }
        let Ok(look) = self.framer.look(piece) else {
            return Err(StepFault::OutOfMemory { joined: 0 });
        };
        match add_frames(&mut self.archive, look.found()) {
            Ok(counts) => {
                self.framer.settle(look);
                Ok(counts.fed())
            }
            Err(RanOut { done }) => Err(StepFault::OutOfMemory { joined: done }),
        }
    }

    /// Ends the stream, and adds the messages of its last frames.
    pub(crate) fn end(&mut self) -> Result<Answer, StepFault>
        ensures ends { Ends self.old self.new result }
        ensures tables { self.new.archive.tables ≡ self.old.archive.tables }
    {
        archive_is_kept(&self.archive);
        let Ok(look) = self.framer.look_end() else {
            return Err(StepFault::OutOfMemory { joined: 0 });
        };
        match add_frames(&mut self.archive, look.found()) {
            Ok(counts) => {
                self.framer.settle(look);
                Ok(counts.ended())
            }
            Err(RanOut { done }) => Err(StepFault::OutOfMemory { joined: done }),
        }
    }
}
