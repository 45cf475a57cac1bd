//! Finds the BUFR messages in a stream of octets that comes in any pieces.
//!
//! A *frame* is `BUFR`, three octets with a length of at least 12, the other octets, and `7777` at
//! its end. The *cut* of a stream has its frames from the left: the first, then the first that
//! begins at or after its end, and so on. A place is *open* while a frame may still come there. A
//! frame is *sure* if no place before it, outside earlier frames, is open. If memory runs out, a
//! call changes nothing.
#![tactic(auto)]

pub use bufr_base::{Items, OutOfMemory};
pub use framers::Framer;
pub use frames::Found;
pub use lent_frame::LentFrame;
pub use looks::Look;
pub use next_frame::{NextFrame, Taken};
pub use pieces::frames_of_pieces;

mod framers;
mod frames;
mod held;
pub mod laws;
mod lent_frame;
mod looks;
mod next_frame;
mod pieces;
mod places;
mod reaching;
mod scans;
mod worked_values;
