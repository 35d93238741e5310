//! The end of a call: no cards, and empty parts behind the cubes.
ghost use Rattle.std.specs.Prelude.{◌≡◌, ◌-◌, ◌*◌, ◌++◌, map, drop, replicate};
ghost use Rattle.cubes.specs.Areas.{flat, overlay};
ghost use Rattle.table.specs.Cards.{blank};
ghost use Rattle.tending.specs.Solutions.{SameAreas, left};

use crate::solution::Solution;
use cubes::area::clear;
use parts::Part;
use table::card::Card;

impl<P: Part> Solution<'_, P> {
    /// Makes the parts behind the cubes that are left empty, up to `count` cubes, and the first `count` cards all zeros.
    pub fn settle(&mut self)
        ensures cubes { map P.set self.new.cubes.now ≡ overlay (flat (left P.set self.old) ++ replicate ((self.old.count - self.old.n) * self.old.p) 0) (map P.set self.old.cubes.now) }
        ensures cards { self.new.cards.now ≡ overlay (replicate self.old.count blank) self.old.cards.now }
        ensures behind { drop (self.old.count * self.old.p) self.new.cubes.now ≡ drop (self.old.count * self.old.p) self.old.cubes.now }
        ensures n { self.new.n ≡ self.old.n }
        ensures areas { SameAreas self.old self.new }
    {
        let from = self.n * self.p;
        let to = self.count * self.p;
        let cubes = &mut *self.cubes;
        clear(&mut cubes[from..to]);
        let count = self.count;
        let cards = &mut *self.cards;
        cards[..count].fill(Card::blank());
    }
}
