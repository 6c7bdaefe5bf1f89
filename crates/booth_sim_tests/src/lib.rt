//! Tests of simulations. They are a crate of their own, so that `booth_sim` is proved without them.
#![tactic(auto)]

#[cfg(test)]
mod tests;
