//! The tests of `serf_view`, which see of it what any program sees.
#![tactic(auto)]

#[cfg(test)]
mod tests;
