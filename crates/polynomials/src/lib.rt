#![tactic(auto)]

pub mod degrees;
pub mod lists;
pub mod sums;
pub mod theorems;
pub mod views;
