//! The bench's areas, the parts that are declared, and the table that is being filled.
ghost use Rattle.std.specs.Prelude.{◌≤◌};
ghost use Rattle.sheet.specs.Bench.{Small};

use session::Table;
use table::card::Card;

/// The areas of the bench. Cards and numbers lie beside the parts, and not with them, as the calls of the session take them.
#[derive(Drop)]
pub(crate) struct Areas<P> {
    pub(crate) universe: Vec<P>,
    pub(crate) table: Vec<P>,
    pub(crate) rows: Vec<Card>,
    pub(crate) off: Vec<P>,
    pub(crate) solution: Vec<P>,
    pub(crate) cards: Vec<Card>,
    pub(crate) work: Vec<P>,
    pub(crate) numbers: Vec<usize>,
}

/// The parts that are declared: how many, and their sizes, with zeros past them. `begin` of the session takes both.
#[derive(Drop)]
pub(crate) struct Sizes {
    pub(crate) all: [usize; 16],
    pub(crate) p: usize,
    ghost few: { p ≤ 16 },
    ghost small: { Small all },
}

/// A table that is being filled, with the parts declared, the universe as a row of words, and the row in hand: `add` of the session takes
/// sixteen words.
pub(crate) struct Draft {
    pub(crate) table: Table,
    pub(crate) p: usize,
    pub(crate) full: [u64; 16],
    pub(crate) row: [u64; 16],
    ghost few: { p ≤ 16 },
}

/// How many cubes the solution and the off list have, which is printed when the table is opened.
#[derive(Clone, Copy)]
pub(crate) struct Tally {
    pub(crate) on: usize,
    pub(crate) off: usize,
}
