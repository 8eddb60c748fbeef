#![tactic(auto)]

mod admit;
pub mod dimensions;
pub mod fault;
pub mod numbers;
pub mod state;
pub mod store;
