//! The cards beside the cubes of a solution, while a call runs.
#![tactic(auto)]

pub mod close;
pub mod settle;
pub mod solution;
pub mod start;
pub mod weight;
