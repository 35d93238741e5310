//! A solution while a call runs.
ghost use Rattle.std.specs.Prelude.{◌≡◌, ◌*◌, ◌≤◌, length, take};

use cubes::list::Cubes;
use parts::Part;
use table::card::Card;

/// The cubes of a solution, each of `p` parts, with a card beside each: the first `n` are left of the `count` with which a call begins.
/// The areas may be longer.
// Parts and cards lie apart, since the caller lends them as two areas. A method that changes one lends it on by its own name first
// (`&mut *self.cubes`): so a proof follows what it holds.
#[derive(Drop)]
pub struct Solution<'a, P> {
    pub cubes: &'a mut [P],
    pub cards: &'a mut [Card],
    pub p: usize,
    pub n: usize,
    pub count: usize,
    ghost fits: { count * p ≤ length cubes.now },
    ghost beside: { count ≤ length cards.now },
    ghost within: { n ≤ count },
}

impl<'a, P: Part> Solution<'a, P> {
    /// The first `n` cubes of an area of solution, each of `p` parts, with their cards.
    pub fn new(p: usize, n: usize, cubes: &'a mut [P], cards: &'a mut [Card]) -> Solution<'a, P>
        requires fits { n * p ≤ length cubes.old }
        requires beside { n ≤ length cards.old }
        ensures cubes { result.cubes.now ≡ cubes.old }
        ensures cards { result.cards.now ≡ cards.old }
        ensures p { result.p ≡ p }
        ensures n { result.n ≡ n }
        ensures count { result.count ≡ n }
        ensures same_cubes { result.cubes.ghost_name ≡ cubes.entry.ghost_name }
        ensures same_cards { result.cards.ghost_name ≡ cards.entry.ghost_name }
    {
        Solution {
            cubes,
            cards,
            p,
            n,
            count: n,
        }
    }

    /// The cubes that are left.
    pub fn left(&self) -> Cubes<'_, P>
        ensures parts { result.parts.now ≡ self.now.cubes.now }
        ensures p { result.p ≡ self.now.p }
        ensures n { result.n ≡ self.now.n }
    {
        Cubes::new(self.cubes, self.p, self.n)
    }

    /// The cards of the cubes that are left.
    pub fn cards_left(&self) -> &[Card]
        ensures { result.now ≡ take self.now.n self.now.cards.now }
    {
        &self.cards[..self.n]
    }
}
