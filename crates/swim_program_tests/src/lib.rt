//! The tests of `swim_program`, which see of it what any program sees.
#![tactic(auto)]

#[cfg(test)]
mod tests;
