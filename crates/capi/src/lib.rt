#![tactic(auto)]

// What `capi_c` exports to callers in C, on byte slices.
pub mod blocks;
mod method;
pub mod sectors;
