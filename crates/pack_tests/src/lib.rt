//! The tests of `swim_pack`, which see of it what any program sees.
#![tactic(auto)]

#[cfg(test)]
mod tests;
