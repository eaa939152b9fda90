//! The tests of `capture`, which see of it what any program sees.
#![tactic(auto)]

#[cfg(test)]
mod tests;
