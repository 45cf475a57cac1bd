//! The version of the master tables of the last message, kept for a message with the same head.

ghost use Rattle.std.specs.Prelude.{◌≡◌, ◌∷◌, ◌++◌, [], ℕ, decimal, IfSome};
ghost use Rattle.bufr_io.specs.Taking.{frame_at};
ghost use Rattle.bufr_ls_engine.specs.Rows.{frame_refused, row};
ghost use Rattle.bufr_ls_engine.specs.declared.column.Column.TheVariants.{MasterVersion};

use crate::last_head::LastHead;
use bufr_sections::find_sections;
use std::marker::Model;

/// The version of the last message. Contracts see it alone.
#[derive(Drop)]
pub(crate) struct LastVersion {
    head: LastHead,
    version: u8,
}

impl Model for LastVersion {
    ghost use Rattle.std.specs.Prelude.{◌≡◌, ℕ, List};
    ghost use Rattle.bufr_ls_engine.specs.RowSteps.{SaysAgain};

    ghost Value = { ℕ };

    ghost view = { λ l. l.version };

    ghost invariant = { λ l. (text : List ℕ) × SaysAgain l.head l.version text };
}

impl LastVersion {
    /// Starts without a message.
    pub(crate) fn new() -> LastVersion {
        LastVersion {
            head: LastHead::none(),
            version: 0,
        }
    }

    /// Returns the version of the master tables of a frame, if the frame has no refusal.
    // The launcher asks for this column.
    #[inline(always)]
    pub(crate) fn version_of(&mut self, octets: &[u8]) -> Option<u8>
        ensures row { IfSome result (λ version. (input message place : ℕ)
            → row (MasterVersion ∷ []) input message (frame_at place octets.now)
            ≡ decimal version ++ 10 ∷ []) }
        ensures read { IfSome result (λ version. (place : ℕ)
            → frame_refused (frame_at place octets.now) ≡ 0) }
    {
        if self.head.is_of(octets) {
            return Some(self.version);
        }
        self.next_version(octets)
    }

    /// Does what `version_of` does, for a frame with another head.
    #[inline(never)]
    #[tactic(auto, unfolding(crate::specs::Rows::field_as, crate::specs::Rows::said_in))]
    fn next_version(&mut self, octets: &[u8]) -> Option<u8>
        ensures row { IfSome result (λ version. (input message place : ℕ)
            → row (MasterVersion ∷ []) input message (frame_at place octets.now)
            ≡ decimal version ++ 10 ∷ []) }
        ensures read { IfSome result (λ version. (place : ℕ)
            → frame_refused (frame_at place octets.now) ≡ 0) }
    {
        match find_sections(octets) {
            Ok(said) => {
                self.version = said.master_version();
                self.head.keep(octets, &said);
                Some(self.version)
            }
            Err(_) => None,
        }
    }
}
