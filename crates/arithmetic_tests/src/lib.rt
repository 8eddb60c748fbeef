#![tactic(auto)]

// Tests of the crates `elements` and `polynomials`, in a crate of their own because a crate with tests is proved twice.
#[cfg(test)]
mod counting_tests;
#[cfg(test)]
mod marked_tests;
#[cfg(test)]
mod product_tests;
