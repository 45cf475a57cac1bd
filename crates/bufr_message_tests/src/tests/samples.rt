use bufr_tables::{TableB, TableD, Tables};
use std::alloc::Global;
use std::process::Abort;

const TABLE_B: &str = "\
FXY,ElementName_en,BUFR_Unit,BUFR_Scale,BUFR_ReferenceValue,BUFR_DataWidth_Bits
001001,block number,Numeric,0,0,7
001002,station number,Numeric,0,0,10
001011,ship or mobile station,CCITT IA5,0,0,72
002001,type of station,Code table,0,0,2
004001,year,a,0,0,12
004002,month,mon,0,0,4
004003,day,d,0,0,6
004004,hour,h,0,0,5
004005,minute,min,0,0,6
005002,latitude,deg,2,-9000,15
006002,longitude,deg,2,-18000,16
007001,height of station,m,0,-400,15
010004,pressure,Pa,-1,0,14
012101,temperature,K,2,0,16
031000,short delayed descriptor replication factor,Numeric,0,0,1
031001,delayed descriptor replication factor,Numeric,0,0,8
";

const TABLE_D: &str = "\
FXY1,FXY2
301001,001001
301001,001002
301011,004001
301011,004002
301011,004003
301012,004004
301012,004005
301250,301250
";

pub(crate) fn tables(rt: &impl Abort, alloc: Global) -> Tables {
    let b = TableB::parse(alloc, TABLE_B.as_bytes()).expect(rt, "a table");
    let d = TableD::parse(alloc, TABLE_D.as_bytes()).expect(rt, "a table");
    Tables::new(b, d)
}

/// Decodes hexadecimal digits. `S1` is the usual section 1, `END` section 5.
pub(crate) fn octets(rt: &impl Abort, alloc: Global, text: &str) -> Vec<u8> {
    let mut digits = String::new(alloc);
    for word in text.split_whitespace() {
        digits.push_str(digits_of(word)).expect(rt, "room");
    }
    hex::decode(alloc, digits.as_str()).expect(rt, "a message")
}

fn digits_of(word: &str) -> &str {
    match word {
        "S1" => "00001600006200000000000200250007E8010F0C0000",
        "END" => "37373737",
        "|" => "",
        other => other,
    }
}

/// One plain subset of eight elements. `SEQUENCES` has the same in sequences, and others
/// change one thing of it.
pub(crate) const ELEMENTS_ONLY: &str = "\
42554652 000046 04 | S1 | 000017 00 0001 80 0101 0102 0401 0402 0403 0404 0405 0C65 |
00000D 00 14C03F409EC01AACC0 | END";

pub(crate) const SEQUENCES: &str = "\
42554652 00003E 04 | S1 | 00000F 00 0001 80 C101 C10B C10C 0C65 |
00000D 00 14C03F409EC01AACC0 | END";

pub(crate) const MISSING_TEMPERATURE: &str = "\
42554652 00003E 04 | S1 | 00000F 00 0001 80 C101 C10B C10C 0C65 |
00000D 00 14C03F409EC03FFFC0 | END";

pub(crate) const UNOBSERVED: &str = "\
42554652 00003E 04 | S1 | 00000F 00 0001 00 C101 C10B C10C 0C65 |
00000D 00 14C03F409EC01AACC0 | END";

pub(crate) const EMPTY_SECTION_2: &str = "\
42554652 000042 04 | 000016 00 0062 0000 00 80 00 02 00 25 00 07E8 01 0F 0C 00 00 |
000004 00 | 00000F 00 0001 80 C101 C10B C10C 0C65 | 00000D 00 14C03F409EC01AACC0 | END";

pub(crate) const DELAYED_COUNT_0: &str =
    "42554652 000034 04 | S1 | 00000D 00 0001 80 4100 1F01 0C65 | 000005 00 00 | END";

pub(crate) const DELAYED_COUNT_1: &str =
    "42554652 000036 04 | S1 | 00000D 00 0001 80 4100 1F01 0C65 | 000007 00 016AB3 | END";

/// Two plain subsets of counts 0 and 1.
pub(crate) const UNEQUAL_COUNTS: &str =
    "42554652 000037 04 | S1 | 00000D 00 0002 80 4100 1F01 0C65 | 000008 00 00016AB3 | END";

/// Three plain subsets of one bit: 0, 1 and 0.
pub(crate) const THREE_BITS: &str =
    "42554652 000030 04 | S1 | 000009 00 0003 80 1F00 | 000005 00 40 | END";

pub(crate) const NO_SUBSETS: &str =
    "42554652 000035 04 | S1 | 00000F 00 0000 80 C101 C10B C10C 0C65 | 000004 00 | END";

/// Two bits more and one more decimal place, and then neither.
pub(crate) const OPERATORS: &str = "\
42554652 00003E 04 | S1 | 000013 00 0001 80 8182 8281 0C65 8100 8200 0C65 |
000009 00 F4241AACC0 | END";

/// One bit more: the second 201 takes the place of the first.
pub(crate) const REPLACED_WIDTH: &str =
    "42554652 000036 04 | S1 | 00000D 00 0001 80 8182 8181 0C65 | 000007 00 355980 | END";

/// Scale, reference value and width raised together.
pub(crate) const RAISED_TOGETHER: &str =
    "42554652 000034 04 | S1 | 00000B 00 0001 80 8701 0C65 | 000007 00 42AFE0 | END";

/// Raw numbers 8999, 0, 0, 10132 and 0 under reference values and a negative scale.
pub(crate) const VALUES: &str = "\
42554652 000041 04 | S1 | 000011 00 0001 80 0502 0602 0701 0A04 0A04 |
00000E 00 464E0000000279400000 | END";

pub(crate) const TEXT_WIDTH_AND_ESCAPES: &str =
    "42554652 000035 04 | S1 | 00000B 00 0001 80 8804 010B | 000008 00 41225C0A | END";

/// An element of no table, of 12 bits.
pub(crate) const LOCAL_DESCRIPTOR: &str =
    "42554652 000033 04 | S1 | 00000B 00 0001 80 860C 01FA | 000006 00 0050 | END";

/// `ELEMENTS_ONLY` with octets for local use, a section 2, an odd octet and two octets after the data.
pub(crate) const LOCAL_OCTETS_AND_SLACK: &str = "\
42554652 000051 04 | 000018 00 0062 0000 00 80 00 02 00 25 00 07E8 01 0F 0C 00 00 ABCD |
000006 00 0102 | 000018 00 0001 80 0101 0102 0401 0402 0403 0404 0405 0C65 FF |
00000F 00 14C03F409EC01AACC0 0000 | END";

/// `ELEMENTS_ONLY` with ones in all that readers ignore.
pub(crate) const IGNORED_ONES: &str = "\
42554652 000046 04 | 000016 00 0062 0000 00 7F 00 02 00 25 00 07E8 01 0F 0C 00 00 |
000017 FF 0001 BF 0101 0102 0401 0402 0403 0404 0405 0C65 | 00000D FF 14C03F409EC01AACFF |
END";

/// No subset, and nine octets after the data.
pub(crate) const NO_SUBSETS_AND_SLACK: &str = "\
42554652 00003E 04 | S1 | 00000F 00 0000 80 C101 C10B C10C 0C65 |
00000D 00 14C03F409EC01AACC0 | END";

/// Fourteen different numbers in section 1, and two octets for local use.
pub(crate) const DISTINCT_HEAD: &str = "\
42554652 000033 04 | 000018 00 0102 0304 05 00 06 07 08 09 0A 0B0C 0D 0E 0F 10 11 1213 |
000009 00 0001 80 0C65 | 000006 00 6AB3 | END";

/// A text on both sides of the printable octets, with a quote and a backslash.
pub(crate) const CHARACTERS: &str =
    "42554652 00003B 04 | S1 | 00000B 00 0001 80 880A 010B | 00000E 00 1F2021227D7E7F5C0AFF | END";

/// Two compressed subsets, the second with a missing temperature.
pub(crate) const COMPRESSED_PAIR: &str = "\
42554652 000044 04 | S1 | 00000F 00 0002 C0 C101 C10B C10C 0C65
| 000013 00 14030003F400201E03000006AB3050 | END";

/// Two compressed texts of three characters, the second missing.
pub(crate) const COMPRESSED_TEXTS: &str = "\
42554652 000039 04 | S1 | 00000B 00 0002 C0 8803 010B | 00000C 00 00000009050BFFFC | END";

/// Two compressed subsets with increments of two bits.
pub(crate) const COMPRESSED_INCREMENTS: &str = "\
42554652 000044 04 | S1 | 00000F 00 0002 C0 C101 C10B C10C 0C65
| 000013 00 14030003F400201E03000006AB3084 | END";

/// Two compressed subsets of a factor of 0.
pub(crate) const COMPRESSED_FACTOR: &str = "\
42554652 000035 04 | S1 | 00000D 00 0002 C0 4100 1F01 0C65 | 000006 00 0004 | END";

/// An element of one bit that is no factor, 0 and 1.
pub(crate) const COMPRESSED_NOT_A_FACTOR: &str = "\
42554652 000031 04 | S1 | 000009 00 0002 C0 1F00 | 000006 00 0280 | END";

pub(crate) const NO_COMPRESSED_SUBSETS: &str =
    "42554652 000035 04 | S1 | 00000F 00 0000 C0 C101 C10B C10C 0C65 | 000004 00 | END";

pub(crate) const NO_SUBSETS_UNOBSERVED: &str =
    "42554652 000035 04 | S1 | 00000F 00 0000 40 C101 C10B C10C 0C65 | 000004 00 | END";

pub(crate) const TEMPERATURE: &str =
    "42554652 000031 04 | S1 | 000009 00 0001 80 0C65 | 000006 00 6AB3 | END";

/// Edition 3, 15 January 2024, 12:00, with one octet for local use.
pub(crate) const EDITION_3: &str = "\
42554652 00003C 03 | 000012 00 00 62 00 00 00 02 0D 00 18 01 0F 0C 00 00 |
000010 00 0001 80 C101 C10B C10C 0C65 00 | 00000E 00 14C03F409EC01AACC0 00 | END";
