//! Frames, typed from the specifications of sections 0 to 5, and their rows.

/// A message of edition 4 with a section 2, two octets for local use and two descriptors. Each octet of
/// section 1 from the fifth on differs.
pub(super) const EDITION_4: &[u8] = b"BUFR\x00\x00\x3b\x04\
\x00\x00\x18\x00\x01\x02\x03\x04\x05\x80\x06\x07\x08\x09\x0a\x0b\x0c\x0d\x0e\x0f\x10\x11\x12\x13\
\x00\x00\x05\x00\x14\x00\x00\x0b\x00\x15\x16\x80\x17\x18\x19\x1a\x00\x00\x07\x00\x1b\x1c\x1d7777";

/// A message of edition 3, compressed, with an odd octet behind its descriptor.
pub(super) const EDITION_3: &[u8] = b"BUFR\x00\x00\x2c\x03\
\x00\x00\x12\x00\x01\x02\x03\x7f\x04\x05\x06\x07\x46\x09\x0a\x0b\x0c\x0d\
\x00\x00\x0a\x00\x00\x01\x40\xc1\x01\xff\x00\x00\x04\x007777";

/// Frames of the refusals M2 and M5 to M9, one after another.
pub(super) const REFUSED: &[u8] = b"BUFR\x00\x00\x0c\x057777\
BUFR\x00\x00\x0c\x047777\
BUFR\x00\x00\x22\x04\
\x00\x00\x16\x0a\x00\x62\x00\x00\x00\x00\x00\x02\x00\x25\x00\x07\xe8\x01\x0f\x0c\x00\x007777\
BUFR\x00\x00\x25\x04\
\x00\x00\x16\x00\x00\x62\x00\x00\x00\x80\x00\x02\x00\x25\x00\x07\xe8\x01\x0f\x0c\x00\x00\
\x00\x00\x037777\
BUFR\x00\x00\x2a\x04\
\x00\x00\x16\x00\x00\x62\x00\x00\x00\x00\x00\x02\x00\x25\x00\x07\xe8\x01\x0f\x0c\x00\x00\
\x00\x00\x08\x00\x00\x01\x80\x007777\
BUFR\x00\x00\x2e\x04\
\x00\x00\x16\x00\x00\x62\x00\x00\x00\x00\x00\x02\x00\x25\x00\x07\xe8\x01\x0f\x0c\x00\x00\
\x00\x00\x09\x00\x00\x01\x80\x01\x01\x00\x00\x037777";

/// The shortest frame, of an edition that is not read, and then a message of edition 3.
pub(super) const TWO_FRAMES: &[u8] = b"BUFR\x00\x00\x0c\x057777\
BUFR\x00\x00\x2c\x03\
\x00\x00\x12\x00\x01\x02\x03\x7f\x04\x05\x06\x07\x46\x09\x0a\x0b\x0c\x0d\
\x00\x00\x0a\x00\x00\x01\x40\xc1\x01\xff\x00\x00\x04\x007777";

/// The words of all columns.
pub(super) const HEADER: &str = "input,message,place,length,edition,centre,sub_centre,update,\
category,international,local_category,master_table,master_version,local_version,year,month,day,\
hour,minute,second,subsets,observed,compressed,descriptors,reason\n";

/// The row of the message of edition 4, alone in the first input.
pub(super) const ROW_4: &str =
    "1,1,0,59,4,258,772,5,6,7,8,0,9,10,2828,13,14,15,16,17,5398,1,0,023024 025026,\n";

/// The row of the message of edition 3, alone in the second input.
pub(super) const ROW_3: &str = "2,1,0,44,3,2,1,3,4,255,5,0,6,7,1970,9,10,11,12,0,1,0,1,301001,\n";

/// The rows of the refused frames in the third input.
pub(super) const ROWS_REFUSED: &str = "3,1,0,12,5,,,,,,,,,,,,,,,,,,,,M2 Edition 5\n\
3,2,12,12,4,,,,,,,,,,,,,,,,,,,,M5 Section1Length\n\
3,3,24,34,4,,,,,,,10,,,,,,,,,,,,,M6 MasterTable 10\n\
3,4,58,37,4,,,,,,,,,,,,,,,,,,,,M7 Section2Length\n\
3,5,95,42,4,,,,,,,,,,,,,,,,,,,,M8 Section3Length\n\
3,6,137,46,4,,,,,,,,,,,,,,,,,,,,M9 Section4Length\n";
