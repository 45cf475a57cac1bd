//! Tests that refuse every growth in turn to shelves, archives and depots.
#![tactic(auto)]

#[cfg(test)]
mod tests;
