#![tactic(auto)]

pub mod tables;
pub mod theorems;
