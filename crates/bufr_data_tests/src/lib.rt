//! Tests of the public calls of bufr_data.
#![tactic(auto)]

#[cfg(test)]
mod tests;
