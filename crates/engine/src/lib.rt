//! What lies under the calls on an open session: the checks, and the cubes of the solution taken one after the other, on lent slices.
#![tactic(auto)]

pub mod areas;
pub mod calls;
pub mod expand;
pub mod foreign;
