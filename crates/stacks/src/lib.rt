#![tactic(auto)]

pub mod call;
pub mod run;
pub mod stack;
pub mod theorems;
