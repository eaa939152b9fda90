//! The tests of `memberlist_member`, which see of it what any program sees.
#![tactic(auto)]

#[cfg(test)]
mod tests;
