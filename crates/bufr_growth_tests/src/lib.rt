//! Tests that refuse every growth in turn to bits, messages and frames.
#![tactic(auto)]

#[cfg(test)]
mod tests;
