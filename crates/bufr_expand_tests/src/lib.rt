//! Tests of the public calls of bufr_expand.
#![tactic(auto)]

#[cfg(test)]
mod tests;
