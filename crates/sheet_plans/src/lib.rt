#![tactic(auto)]

pub mod answers;
pub mod plans;
