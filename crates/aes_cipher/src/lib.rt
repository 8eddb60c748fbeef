#![tactic(auto)]

pub mod cipher;
mod schedule;
mod state;
