//! Fields, their values, and the fields that a template allows.
#![tactic(auto)]

mod decimals;
mod digits;
mod fault;
mod field;
mod fit;
mod form;
mod increment;
pub mod laws;
mod limits;
mod text;
mod worked_values;

pub use fault::{DataFault, MisfitFault};
pub use field::{Decimal, Field, NumberField, Raw, Subset};
pub use fit::fit_fields;
pub use form::{are_ones, is_below, is_greatest, is_same};
pub use increment::{fewest_bits, greatest, never_passes, raised};
pub use limits::{MOST_DECIMAL_SCALE, MOST_INCREMENT_BITS, MOST_RAW_BITS, MOST_VALUES};
