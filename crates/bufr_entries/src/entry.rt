use crate::key::Key;
use bufr_base::Items;

/// An entry of an archive.
#[derive(Debug, Drop)]
pub struct Entry {
    /// The key, if it has one.
    pub key: Option<Key>,
    /// The update sequence number.
    pub update: u8,
    /// The canonical message.
    pub bytes: Items<u8>,
}
