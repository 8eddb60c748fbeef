#![tactic(auto)]

// Tests of the crates for sheets and `lines`: sheets with what is printed for them.
#[cfg(test)]
mod draft;
#[cfg(test)]
mod prints;
#[cfg(test)]
mod reference_tests;
#[cfg(test)]
mod rule_tests;
