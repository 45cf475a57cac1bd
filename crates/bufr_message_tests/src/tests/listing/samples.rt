use bufr_listing_reader::read;
use bufr_sections::Message;
use bufr_tables::{TableB, TableD, Tables};
use std::alloc::Global;
use std::process::Abort;

const ELEMENTS: &str = "\
FXY,ElementName_en,BUFR_Unit,BUFR_Scale,BUFR_ReferenceValue,BUFR_DataWidth_Bits
001001,block number,Numeric,0,0,7
001002,station number,Numeric,0,0,10
004001,year,a,0,0,12
004002,month,mon,0,0,4
004003,day,d,0,0,6
004004,hour,h,0,0,5
004005,minute,min,0,0,6
012101,temperature,K,2,0,16
";

const SEQUENCES: &str = "\
FXY1,FXY2
301001,001001
301001,001002
301011,004001
301011,004002
301011,004003
301012,004004
301012,004005
";

pub(super) fn first_message(rt: &impl Abort, alloc: Global, text: &str) -> Message {
    let b = TableB::parse(alloc, ELEMENTS.as_bytes()).expect(rt, "an answer");
    let d = TableD::parse(alloc, SEQUENCES.as_bytes()).expect(rt, "an answer");
    let tables = Tables::new(b, d);
    let messages = read(alloc, &tables, text.as_bytes());
    drop(tables);
    let messages = messages.expect(rt, "an answer");
    messages.into_iter().next().expect(rt, "a message")
}
