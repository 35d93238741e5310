//! Cubes of any kind of part, lying flat in slices: a cube of p parts at place i is the parts from i * p on.
#![tactic(auto)]

pub mod area;
pub mod cube;
pub mod laws;
pub mod list;
