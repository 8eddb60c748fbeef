#![tactic(auto)]

pub mod settings;
pub mod turns;
