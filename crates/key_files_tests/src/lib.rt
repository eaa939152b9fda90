//! The tests of `key_files`, which see of it what any program sees.
#![tactic(auto)]

#[cfg(test)]
mod tests;
