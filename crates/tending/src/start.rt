//! The start of a call: the cards are written.
ghost use Rattle.std.specs.Prelude.{◌≡◌, ◌*◌, ◌≤◌, map, length};
ghost use Rattle.cubes.specs.Areas.{cubes as cubes_in, overlay};
ghost use Rattle.moves.specs.Items.{started};
ghost use Rattle.tending.specs.Items.{items_of, cards_of};
ghost use Rattle.tending.specs.Solutions.{SameAreas, items, left};

use crate::solution::Solution;
use crate::weight::weigh;
use cubes::list::Cubes;
use parts::Part;
use table::card::Card;

/// Writes the cards of the first `n` cubes: weights and starting places, and no marks.
// The list is made in here: of a `&mut` field that a list was made of, a proof knows nothing afterwards.
pub fn start_cards<P: Part>(p: usize, n: usize, solution: &[P], cards: &mut [Card])
    requires few { p ≤ 16 }
    requires most { n ≤ 512 }
    requires fits { n * p ≤ length solution.now }
    requires beside { n ≤ length cards.old }
    ensures items { items_of p n (map P.set solution.now) cards.new ≡ started (cubes_in p n (map P.set solution.now)) }
    ensures cards { cards.new ≡ overlay (cards_of (started (cubes_in p n (map P.set solution.now)))) cards.old }
{
    let cubes = Cubes::new(solution, p, n);
    for (i, cube) in cubes.iter().enumerate() {
        cards[i] = Card {
            weight: weigh(cube, &cubes),
            place: i,
            ..Card::blank()
        };
    }
}

impl<P: Part> Solution<'_, P> {
    /// Writes the cards of the cubes: weights and starting places, and no marks.
    pub fn start(&mut self)
        requires few { self.old.p ≤ 16 }
        requires most { self.old.n ≤ 512 }
        ensures items { items P.set self.new ≡ started (left P.set self.old) }
        ensures cubes { self.new.cubes.now ≡ self.old.cubes.now }
        ensures cards { self.new.cards.now ≡ overlay (cards_of (started (left P.set self.old))) self.old.cards.now }
        ensures n { self.new.n ≡ self.old.n }
        ensures areas { SameAreas self.old self.new }
    {
        let (p, n) = (self.p, self.n);
        let cubes = &mut *self.cubes;
        let cards = &mut *self.cards;
        start_cards(p, n, cubes, cards);
    }
}
