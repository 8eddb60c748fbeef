#![tactic(auto)]

mod puts;
pub mod runs;
