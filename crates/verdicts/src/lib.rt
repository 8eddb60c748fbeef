#![tactic(auto)]

pub mod agreement;
mod sectors;
pub mod verdict;
