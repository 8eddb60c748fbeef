#![tactic(auto)]

pub mod flat;
mod layout;
mod limits;
mod lookup;
mod medium;
mod places;
pub mod spared;
