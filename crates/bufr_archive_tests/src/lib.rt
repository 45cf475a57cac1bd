//! Tests of the public calls of bufr_archive. It has tests only.
#![tactic(auto)]

#[cfg(test)]
mod tests;
