#![tactic(auto)]

pub mod answer;
pub mod kinds;
pub mod reading;
pub mod theorems;
