//! What is left of a cube outside the rows of a list, walked piece by piece over a stack in lent memory.
#![tactic(auto)]

pub mod rest;
mod stack;
