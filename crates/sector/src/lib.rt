#![tactic(auto)]

pub mod cipher;
mod counter;
pub mod cover;
pub mod numbers;
mod pieces;
pub mod refusal;
mod steps;
mod tails;
pub mod text;
pub mod theorems;
pub mod transform;
