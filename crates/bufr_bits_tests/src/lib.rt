//! Tests of the public calls of bufr_bits.
#![tactic(auto)]

#[cfg(test)]
mod tests;
