//! Bits of octets, most significant first, and the devices that octets come from and go to.
#![tactic(auto)]

mod append;
mod bit_reader;
mod bit_sink;
pub mod device;
mod field;
pub mod laws;
mod octets;
mod worked_values;

pub use bit_reader::BitReader;
pub use bit_sink::BitSink;
pub use bufr_base::OutOfMemory;
pub use device::{Failed, FromRead, IntoWrite, Sink, Source};
