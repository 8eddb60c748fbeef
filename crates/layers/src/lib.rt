#![tactic(auto)]

pub mod cipher;
pub mod window;
