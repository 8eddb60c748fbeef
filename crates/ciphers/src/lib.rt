#![tactic(auto)]

pub mod aes;
pub mod choice;
pub mod function;
pub mod speck;
pub mod theorems;
