//! Tests of the public calls of bufr_message, and nothing else.
#![tactic(auto)]

#[cfg(test)]
mod tests;
