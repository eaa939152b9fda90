//! The tests of `tiered_vec`, which see of it what any program sees.
#![tactic(auto)]

#[cfg(test)]
mod tests;
