ghost use Rattle.std.specs.Prelude.{◌≡◌, ◌+◌, ◌*◌, ◌≤◌, ◌<◌, Some, None, length, IfSome};
ghost use Rattle.std.specs.Prelude.{option_map};
ghost use Rattle.bufr_frame.specs.Starts.{agrees, announced, start_of};

pub(crate) const MARK: &[u8] = b"BUFR";

pub(crate) const END: &[u8] = b"7777";

/// The least length of a frame.
pub(crate) const SHORTEST: usize = 12;

/// The greatest length in three octets, which bounds what a framer holds.
pub(crate) const LONGEST: usize = 16_777_215;

/// `BUFR` and the three octets of the length.
pub(crate) const HEAD: usize = 7;

/// A start: what begins at a place.
#[derive(Clone, Copy)]
pub(crate) enum Start {
    /// A frame of this length.
    Frame(usize),
    /// No frame yet, but one may come.
    Open,
    /// Neither, whatever follows.
    Other,
}

/// Whether octets and mark are the same as far as both go.
#[inline(always)]
#[tactic(auto, using(crate::proofs::Agrees::agrees_by, crate::proofs::Agrees::agrees_by_four))]
pub(crate) fn agrees(octets: &[u8], mark: &[u8]) -> bool
    ensures { result ≡ agrees octets.now mark.now }
{
    // Compares four octets at once.
    if let ([a, b, c, d, ..], [k, l, m, n]) = (octets, mark) {
        return [*a, *b, *c, *d] == [*k, *l, *m, *n];
    }
    let both = octets.len().min(mark.len());
    octets[..both] == mark[..both]
}

/// Returns the length in octets 5 to 7.
fn announced(octets: &[u8]) -> Option<usize>
    ensures told { result ≡ announced octets.now }
    ensures short { IfSome result (λ l. l ≤ LONGEST) }
{
    let [_, _, _, _, high, middle, low, ..] = octets else {
        return None;
    };
    Some(65_536 * usize::from(*high) + 256 * usize::from(*middle) + usize::from(*low))
}

/// Whether a frame starts here: checks `BUFR`, the length and `7777`.
pub(crate) fn start_of(octets: &[u8]) -> Start
    ensures start { result ≡ start_of octets.now }
    ensures open_is_short { result ≡ Start.Open → length octets.now < LONGEST }
{
    if !agrees(octets, MARK) {
        return Start::Other;
    }
    let Some(length) = announced(octets) else {
        return Start::Open;
    };
    if length < SHORTEST {
        return Start::Other;
    }
    if length - 4 < octets.len() && !agrees(&octets[length - 4..], END) {
        return Start::Other;
    }
    if length <= octets.len() {
        Start::Frame(length)
    } else {
        Start::Open
    }
}

/// Returns how many octets are missing to decide an open place.
pub(crate) fn missing(octets: &[u8]) -> usize
    requires { start_of octets.now ≡ Start.Open }
    ensures some { 1 ≤ result }
    ensures short { length octets.now + result ≤ LONGEST }
{
    announced(octets).unwrap_or(HEAD) - octets.len()
}
