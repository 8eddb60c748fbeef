#![tactic(auto)]

pub mod line;
pub mod printing;
pub mod theorems;
