//! Tests of the public calls of bufr_frame, and nothing else.
#![tactic(auto)]

#[cfg(test)]
mod tests;
