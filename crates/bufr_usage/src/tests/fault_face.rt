//! The faults of the faces, each by its path and with what it carries.

use super::tables;
use bufr_archive::{AddFault, JoinFault, WriteFault};
use bufr_data::{DataFault, MisfitFault};
use bufr_expand::TemplateFault;
use bufr_message::listing::{Cause, ListingFault, ListingWriteFault};
use bufr_message::{EncodeFault, Refused};
use bufr_tables::{Column, Fxy, TableFault};

fn is_of_descriptors(column: Column) -> bool {
    match column {
        Column::Fxy => true,
        _ => false,
    }
}

fn table_record(fault: TableFault) -> Option<u64> {
    match fault {
        TableFault::NotCsv(record) => Some(record),
        TableFault::BadRow(record) => Some(record),
        _ => None,
    }
}

fn table_descriptor(fault: TableFault) -> Option<Fxy> {
    match fault {
        TableFault::Conflict(fxy) => Some(fxy),
        TableFault::SplitSequence(fxy) => Some(fxy),
        _ => None,
    }
}

/// Whether a fault of a table file is that it has no column of descriptors.
fn lacks_descriptors_column(fault: TableFault) -> bool {
    match fault {
        TableFault::NoColumn(column) => is_of_descriptors(column),
        _ => false,
    }
}

fn template_descriptor(fault: TemplateFault) -> Option<Fxy> {
    match fault {
        TemplateFault::UnknownElement(fxy) => Some(fxy),
        TemplateFault::UnknownSequence(fxy) => Some(fxy),
        TemplateFault::UnsupportedOperator(fxy) => Some(fxy),
        TemplateFault::BadReplication(fxy) => Some(fxy),
        TemplateFault::BadFactor(fxy) => Some(fxy),
        TemplateFault::BadOperand(fxy) => Some(fxy),
        TemplateFault::Dangling206(fxy) => Some(fxy),
        TemplateFault::TooDeep => None,
        TemplateFault::TooManyNodes => None,
    }
}

/// Returns the number of the field that a fault of data carries, if it carries one.
fn data_field(fault: DataFault) -> Option<u64> {
    match fault {
        DataFault::EffectiveRange(_) => None,
        DataFault::DataEnds(_, field) => Some(field),
        DataFault::UnequalCounts(field) => Some(field),
        DataFault::IncrementRange(_, field) => Some(field),
        DataFault::CharIncrement(field) => Some(field),
        DataFault::TooLarge => None,
    }
}

/// Returns the number of the field that a fault of fields carries, if it carries one.
fn misfit_field(fault: MisfitFault) -> Option<u64> {
    match fault {
        MisfitFault::DoesNotFit(_, field) => Some(field),
        MisfitFault::NotCompressible(field) => Some(field),
        MisfitFault::TooLarge => None,
    }
}

fn refused_octet(why: Refused) -> Option<u8> {
    match why {
        Refused::NotBufr => None,
        Refused::Edition(octet) => Some(octet),
        Refused::TotalLength => None,
        Refused::NoEnd => None,
        Refused::Section1Length => None,
        Refused::MasterTable(octet) => Some(octet),
        Refused::Section2Length => None,
        Refused::Section3Length => None,
        Refused::Section4Length => None,
        Refused::Template(_) => None,
        Refused::Data(_) => None,
    }
}

fn lacks_descriptors(why: EncodeFault) -> bool {
    match why {
        EncodeFault::NoDescriptors => true,
        EncodeFault::Template(_) => false,
        EncodeFault::Data(_) => false,
    }
}

fn listing_line(fault: ListingFault) -> u128 {
    match fault {
        ListingFault::BadLine(line) => line,
        ListingFault::BadValue(line) => line,
        ListingFault::Refused(line, Cause::Template(_)) => line,
        ListingFault::Refused(line, Cause::Walk(_)) => line,
    }
}

/// Returns the number of octets written before a sink failed.
fn octets_written(fault: ListingWriteFault) -> Option<u128> {
    match fault {
        ListingWriteFault::WriteFailed { written } => Some(written),
        ListingWriteFault::OutOfMemory => None,
    }
}

/// Returns the number of reports joined before memory ran out.
fn reports_joined(fault: &AddFault) -> Option<u128> {
    match fault {
        AddFault::OutOfMemory { done } => Some(*done),
        AddFault::Refused(_) => None,
    }
}

fn is_out_of_memory(fault: JoinFault) -> bool {
    match fault {
        JoinFault::OutOfMemory => true,
    }
}

#[test]
fn faults_of_tables_and_data(rt: HostRuntime) {
    let fxy = Fxy::new(0, 1, 250).expect(&rt, "a descriptor");
    assert!(rt; table_record(TableFault::BadRow(3)) == Some(3));
    assert!(rt; table_descriptor(TableFault::Conflict(fxy)) == Some(fxy));
    assert!(rt; lacks_descriptors_column(TableFault::NoColumn(Column::Fxy)));
    assert!(rt; data_field(DataFault::DataEnds(1, 8)) == Some(8));
    assert!(rt; misfit_field(MisfitFault::DoesNotFit(1, 2)) == Some(2));
}

#[test]
fn faults_of_templates(rt: HostRuntime) {
    let fxy = Fxy::new(0, 1, 250).expect(&rt, "a descriptor");
    let tables = tables(&rt, rt.alloc());
    let list = [fxy];
    let refused = bufr_expand::Template::build(rt.alloc(), &tables, &list)
        .err()
        .expect(&rt, "a fault");
    drop(tables);
    let found = match refused {
        bufr_expand::Failure::Fault(fault) => template_descriptor(fault),
        bufr_expand::Failure::OutOfMemory => None,
    };
    assert!(rt; found == Some(fxy));
}

#[test]
fn faults_of_messages(rt: HostRuntime) {
    assert!(rt; refused_octet(Refused::Edition(5)) == Some(5));
    assert!(rt; lacks_descriptors(EncodeFault::NoDescriptors));
    assert!(rt; listing_line(ListingFault::BadValue(14)) == 14);
    assert!(rt; octets_written(ListingWriteFault::WriteFailed { written: 3 }) == Some(3));
}

#[test]
fn faults_of_archives(rt: HostRuntime) {
    assert!(rt; reports_joined(&AddFault::OutOfMemory { done: 2 }) == Some(2));
    assert!(rt; is_out_of_memory(JoinFault::OutOfMemory));
    let WriteFault { written } = WriteFault { written: 5 };
    assert!(rt; written == 5);
}
