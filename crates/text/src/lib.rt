#![tactic(auto)]

pub mod hex;
pub mod numbers;
pub mod theorems;
pub mod words;
