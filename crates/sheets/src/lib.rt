#![tactic(auto)]

pub mod reading;
pub mod records;
