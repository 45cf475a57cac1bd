use bufr_base::Items;
use bufr_fields::Subset;
use bufr_tables::Fxy;

/// A section 1: where a message comes from, its tables and its time.
#[derive(Debug, Drop, PartialEq)]
pub struct Head {
    /// The originating centre.
    pub centre: u16,
    /// The originating sub-centre.
    pub sub_centre: u16,
    /// The update sequence number; 0 for an original message.
    pub update: u8,
    /// The data category (Table A).
    pub category: u8,
    /// The international data sub-category.
    pub international: u8,
    /// The local data sub-category.
    pub local_category: u8,
    /// The version of the master tables.
    pub master_version: u8,
    /// The version of the local tables.
    pub local_version: u8,
    /// The year.
    pub year: u16,
    /// The month. No call tests the parts of the time.
    pub month: u8,
    /// The day of the month.
    pub day: u8,
    /// The hour.
    pub hour: u8,
    /// The minute.
    pub minute: u8,
    /// The second.
    pub second: u8,
    /// The octets for local use: from octet 23 on, in edition 3 from octet 18 on.
    pub local: Items<u8>,
}

/// A message: sections 1 to 3, and the subsets.
#[derive(Debug, Drop, PartialEq)]
pub struct Message {
    /// Section 1.
    pub head: Head,
    /// The octets for local use of section 2, if there is one.
    pub section2: Option<Items<u8>>,
    /// The flag for observed data.
    pub observed: bool,
    /// The flag for compressed data.
    pub compressed: bool,
    /// The descriptors of section 3.
    pub descriptors: Items<Fxy>,
    /// The subsets, each with its fields.
    pub subsets: Items<Subset>,
}

/// A message as read.
#[derive(Debug, Drop, PartialEq)]
pub struct Decoded {
    /// The message.
    pub message: Message,
    /// How many octets of section 4 follow the last with a data bit. Without data bits, all from
    /// the fifth on.
    pub slack_octets: u64,
}
