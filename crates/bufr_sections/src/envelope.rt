use crate::message::Head;
use bufr_base::Items;

/// A message's sections as read. Lends the octets of the descriptors and of section 4.
#[derive(Debug, Drop)]
pub struct Envelope<'a> {
    /// Section 1.
    pub head: Head,
    /// The octets for local use of section 2, if there is one.
    pub section2: Option<Items<u8>>,
    /// The flag for observed data.
    pub observed: bool,
    /// The flag for compressed data.
    pub compressed: bool,
    /// The octets of section 3 from the eighth on: two for each descriptor, perhaps one more.
    pub listed: &'a [u8],
    /// The number of subsets.
    pub count: u16,
    /// The octets of section 4 from the fifth on.
    pub contents: &'a [u8],
}
