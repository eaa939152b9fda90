//! The tests of `serf_message`, which see of it what any program sees.
#![tactic(auto)]

#[cfg(test)]
mod tests;
