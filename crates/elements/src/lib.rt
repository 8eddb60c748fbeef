#![tactic(auto)]

mod bits;
pub mod degrees;
pub mod element;
pub mod fields;
pub mod theorems;
pub mod values;
