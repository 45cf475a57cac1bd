//! Tests of the public calls of bufr_select_engine. It has tests only.
#![tactic(auto)]

#[cfg(test)]
mod tests;
