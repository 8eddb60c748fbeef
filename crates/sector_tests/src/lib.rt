#![tactic(auto)]

// Tests of the crates `hashing` and `sector`.
#[cfg(test)]
mod call_tests;
#[cfg(test)]
mod constant;
#[cfg(test)]
mod marked_tests;
