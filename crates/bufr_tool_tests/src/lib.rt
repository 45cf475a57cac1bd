//! Tests of the public calls of bufr_tool. It has tests only.
#![tactic(auto)]

#[cfg(test)]
mod tests;
