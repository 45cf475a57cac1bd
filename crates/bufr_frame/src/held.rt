//! The octets that a framer keeps.
ghost use Rattle.std.specs.Prelude.{◌≡◌, ◌+◌, ◌-◌, ◌<◌, ◌≤◌, ◌^◌, ◌++◌};
ghost use Rattle.std.specs.Prelude.{false, length, drop, IfOk, OnErr};
ghost use Rattle.bufr_frame.specs.declared.places.TheConstants.{LONGEST};
ghost use Rattle.bufr_frame.specs.Streams.{frames_from, rest_from};

use crate::scans::{Scan, frames_in};
use bufr_base::OutOfMemory;

/// A framer keeps memory of up to four times this number of octets.
const ROOM: usize = 65_536;

/// Drops the octets before a place if they outnumber the others, and returns the new place. Gives
/// memory back below a quarter in use.
pub(crate) fn let_go(octets: &mut Vec<u8>, place: usize) -> usize
    requires { place ≤ length octets.old.items }
    ensures held { drop result octets.new.items ≡ drop place octets.old.items }
    ensures half { result ≤ length (drop result octets.new.items) }
    ensures within { result ≤ length octets.new.items }
{
    let held = octets.len() - place;
    if place <= held {
        return place;
    }
    octets.copy_within(place.., 0);
    octets.truncate(held);
    let room = held.max(ROOM);
    if octets.capacity() / 4 > room {
        octets.shrink_to(room);
    }
    0
}

/// Searches a piece in place when nothing is held, and keeps the rest.
fn scan_in_place(octets: &mut Vec<u8>, place: u64, piece: &[u8]) -> Result<Scan, OutOfMemory>
    requires { place + length piece.now < 2 ^ 64 }
    ensures frames { IfOk result (λ scan. scan.frames.items ≡ frames_from false place 0 piece.now) }
    ensures rest { IfOk result (λ scan. drop scan.rest octets.new.items
        ≡ rest_from (length scan.frames.items) 0 piece.now) }
    ensures half { IfOk result (λ scan.
        scan.rest ≤ length (drop scan.rest octets.new.items)) }
    ensures within { IfOk result (λ scan. scan.rest ≤ length octets.new.items) }
    ensures short { IfOk result (λ scan.
        length (drop scan.rest octets.new.items) < LONGEST) }
    ensures err { OnErr result (octets.new.items ≡ octets.old.items) }
{
    let alloc = *octets.allocator();
    let kept = octets.len();
    let Scan { frames, rest } = frames_in(alloc, false, place, piece)?;
    octets.extend_from_slice(&piece[rest..])?;
    let rest = let_go(octets, kept);
    Ok(Scan { frames, rest })
}

/// Appends a piece to the octets from `from` on, and finds the frames that are sure now.
pub(crate) fn append_and_scan(
    octets: &mut Vec<u8>,
    from: usize,
    place: u64,
    piece: &[u8],
) -> Result<Scan, OutOfMemory>
    requires within { from ≤ length octets.old.items }
    requires room { place + (length octets.old.items - from) + length piece.now < 2 ^ 64 }
    ensures frames { IfOk result (λ scan. scan.frames.items
        ≡ frames_from false place 0 (drop from octets.old.items ++ piece.now)) }
    ensures rest { IfOk result (λ scan. drop scan.rest octets.new.items
        ≡ rest_from (length scan.frames.items) 0 (drop from octets.old.items ++ piece.now)) }
    ensures half { IfOk result (λ scan.
        scan.rest ≤ length (drop scan.rest octets.new.items)) }
    ensures within { IfOk result (λ scan. scan.rest ≤ length octets.new.items) }
    ensures short { IfOk result (λ scan.
        length (drop scan.rest octets.new.items) < LONGEST) }
    ensures err { OnErr result (octets.new.items ≡ octets.old.items) }
{
    let kept = octets.len();
    if from == kept {
        return scan_in_place(octets, place, piece);
    }
    let alloc = *octets.allocator();
    octets.extend_from_slice(piece)?;
    match frames_in(alloc, false, place, &octets[from..]) {
        Ok(Scan { frames, rest }) => {
            let rest = let_go(octets, from + rest);
            Ok(Scan { frames, rest })
        }
        Err(refused) => {
            octets.truncate(kept);
            Err(refused)
        }
    }
}
