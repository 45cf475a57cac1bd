use crate::frames::Found;
use crate::lent_frame::LentFrame;

/// A result of `take_next`.
#[derive(Drop)]
pub struct Taken<'p> {
    /// The next sure frame. Without one, nothing is left of the piece.
    pub found: Option<Found>,
    /// The rest of the piece, for the next call.
    pub rest: &'p [u8],
}

/// A result of `next_frame`.
#[derive(Drop)]
pub struct NextFrame<'p> {
    /// The next sure frame, as in `Taken`.
    pub found: Option<LentFrame<'p>>,
    /// The rest of the piece, for the next call.
    pub rest: &'p [u8],
}
