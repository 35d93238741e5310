//! The rows of a table, read row by row.
ghost use Rattle.std.specs.Prelude.{◌≡◌, ◌≤◌, length};

use crate::card::Card;
use cubes::list::Cubes;
use parts::Part;

/// Rows: cubes with the cards beside them.
#[derive(Drop)]
pub struct Rows<'a, P> {
    pub cubes: Cubes<'a, P>,
    pub cards: &'a [Card],
    ghost beside: { cubes.n ≤ length cards.now },
}

impl<'a, P: Part> Rows<'a, P> {
    /// The cubes of a list, with the cards that lie beside them.
    pub fn new(cubes: Cubes<'a, P>, cards: &'a [Card]) -> Rows<'a, P>
        requires { cubes.n ≤ length cards.now }
        ensures cubes { result.cubes ≡ cubes.entry }
        ensures cards { result.cards.now ≡ cards.now }
    {
        Rows { cubes, cards }
    }
}
