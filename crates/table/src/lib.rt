//! What lies under Begin, Add and Open: the checks in their order, and the writes, on lent slices.
#![tactic(auto)]

pub mod areas;
pub mod begin;
pub mod card;
pub mod off;
pub mod open;
pub mod row;
pub mod rows;
