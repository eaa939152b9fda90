//! The tests of `swim_table`, which see of it what any program sees.
#![tactic(auto)]

#[cfg(test)]
mod tests;
