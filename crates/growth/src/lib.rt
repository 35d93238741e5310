//! The work of Expand on one cube: how far it may grow, in which order its parts grow, and the growth itself.
#![tactic(auto)]

pub mod apart;
pub mod grow;
pub mod over;
pub mod weigh;
pub mod widen;
