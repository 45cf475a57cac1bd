//! Descriptors, the elements of Table B and the sequences of Table D, and their CSV files. Every call
//! that allocates can return `OutOfMemory`.
#![tactic(auto)]

mod columns;
mod csv_records;
mod element;
mod fields;
mod fxy;
pub mod laws;
mod numbers;
mod rows;
mod sequence_rows;
mod table_b;
mod table_d;
mod table_faults;
mod tables;
mod three_digits;
mod worked_values;

pub use bufr_base::{Failure, OutOfMemory};
pub use element::{Element, Kind};
pub use fxy::{Fxy, GREATEST_F, GREATEST_X, GREATEST_Y};
pub use table_b::TableB;
pub use table_d::TableD;
pub use table_faults::{Column, TableFault};
pub use tables::Tables;
