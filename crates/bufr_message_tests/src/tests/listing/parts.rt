//! Listings in parts, of a thousand subsets.

use super::same;
use super::samples::first_message;
use super::writing::assert_taken;
use bufr_fields::{NumberField, Subset};
use bufr_listing::{
    end_text, push_field, push_heading, push_number_field, push_subset, push_subset_line,
    subset_text, text_of,
};
use bufr_sections::{LentSections, Message};
use std::alloc::Global;
use std::process::Abort;

const HEADING: &str = "\
message
section1 98 0 0 0 2 0 37 0
time 2024 1 15 12 0 0
flags observed
descriptors 301001 301011 301012 012101
";

const SUBSET: &str = "\
subset
001001 10
001002 384
004001 2024
004002 1
004003 15
004004 12
004005 0
012101 273.15
";

fn thousand_subsets(rt: &impl Abort, alloc: Global) -> String {
    let subsets = SUBSET.repeat(alloc, 1000).expect(rt, "an answer");
    format!(in alloc; "{HEADING}{subsets}end\n").expect(rt, "an answer")
}

fn joined(rt: &impl Abort, alloc: Global, message: &Message) -> Vec<u8> {
    let sections = LentSections::of_message(message);
    let mut text = Vec::new(alloc);
    push_heading(alloc, &mut text, &sections).expect(rt, "an answer");
    for subset in message.subsets.as_slice() {
        push_subset(&mut text, subset).expect(rt, "an answer");
    }
    text.extend_from_slice(end_text()).expect(rt, "an answer");
    text
}

/// The lines of this subset are `SUBSET`, at once, field by field and number by number.
fn assert_subset(rt: &impl Abort, alloc: Global, subset: &Subset) {
    let listed = subset_text(alloc, subset).expect(rt, "an answer");
    same(rt, listed.as_slice(), SUBSET.as_bytes());
    let mut lines = Vec::new(alloc);
    push_subset_line(&mut lines).expect(rt, "an answer");
    let mut numbers = Vec::new(alloc);
    push_subset_line(&mut numbers).expect(rt, "an answer");
    for field in subset.fields.as_slice() {
        push_field(&mut lines, field).expect(rt, "an answer");
        let number = NumberField {
            fxy: field.fxy,
            spec: field.spec,
            number: field.raw.number(),
        };
        push_number_field(&mut numbers, number).expect(rt, "an answer");
    }
    same(rt, lines.as_slice(), SUBSET.as_bytes());
    same(rt, numbers.as_slice(), SUBSET.as_bytes());
}

/// The listing of a message is `wanted`: whole, in parts, and through a writer.
fn assert_listed(rt: &impl Abort, alloc: Global, message: &Message, wanted: &str) {
    let listing = text_of(alloc, message).expect(rt, "an answer");
    same(rt, listing.as_slice(), wanted.as_bytes());
    same(rt, joined(rt, alloc, message).as_slice(), wanted.as_bytes());
    assert_taken(rt, alloc, message, wanted);
}

#[test]
fn the_parts_of_a_thousand_subsets(rt: HostRuntime) {
    let alloc = rt.alloc();
    let text = thousand_subsets(&rt, alloc);
    let message = first_message(&rt, alloc, text.as_str());
    assert_listed(&rt, alloc, &message, text.as_str());
    let last = message.subsets.get(999).expect(&rt, "a subset");
    assert_subset(&rt, alloc, last);
    drop(message);
}
