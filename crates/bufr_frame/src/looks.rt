ghost use Rattle.std.specs.Prelude.{◌≡◌};

use crate::framers::Framer;
use crate::frames::Found;
use std::marker::Model;

/// A look ahead: the frames that a framer would hand out, and the framer after it.
#[derive(Drop)]
pub struct Look {
    pub(crate) frames: Vec<Found>,
    pub(crate) next: Framer,
}

impl Model for Look {
    ghost use Rattle.bufr_frame.specs.Looks.{LookView};

    ghost Value = { LookView };

    ghost view = { λ l. record { frames = l.frames.items; next = l.next } };
}

impl Look {
    /// Returns the frames that `settle` would hand out.
    pub fn found(&self) -> &[Found]
        ensures { result.now ≡ self.now.frames }
    {
        self.frames.as_slice()
    }
}
