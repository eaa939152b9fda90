//! The tests of `swim_wire`, which see of it what any program sees.
#![tactic(auto)]

#[cfg(test)]
mod tests;
