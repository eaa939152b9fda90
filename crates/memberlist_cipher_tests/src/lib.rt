//! The tests of `memberlist_cipher`, which see of it what any program sees.
#![tactic(auto)]

#[cfg(test)]
mod tests;
