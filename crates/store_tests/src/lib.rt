#![tactic(auto)]

// Tests of the crates `stores`, `media`, `layers` and `stacks`.
#[cfg(test)]
mod bound_tests;
#[cfg(test)]
mod empty;
#[cfg(test)]
mod figure_tests;
#[cfg(test)]
mod listing_tests;
#[cfg(test)]
mod stack_tests;
