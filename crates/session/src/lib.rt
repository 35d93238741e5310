//! A table is begun, filled with rows and opened; what is open is a session. Each call moves the table or the session in, and hands it back
//! changed, or as it was with a refusal. All memory is lent by the caller, in areas: slices in which cubes lie one after another, with a slice
//! of cards or numbers beside them where the area has one. Such an area is as long as its shorter side.
//!
//! What a call leaves in the areas that it may change is said twice: the sets of all places, and which places are the very parts that were
//! there. How a set that is written is kept is left to its kind of part.
#![tactic(auto)]

mod adding;
mod beginning;
mod ending;
mod opening;
mod types;

pub use adding::add;
pub use beginning::begin;
pub use opening::open;
pub use types::{Open, Table};
