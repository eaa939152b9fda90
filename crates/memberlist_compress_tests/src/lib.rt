//! The tests of `memberlist_compress`, which see of it what any program sees.
#![tactic(auto)]

#[cfg(test)]
mod tests;
