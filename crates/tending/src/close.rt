//! Cubes are removed, and those behind them close up with their cards.
ghost use Rattle.std.specs.Prelude.{◌≡◌, suc, ◌-◌, ◌<◌, ◌++◌, take, drop, set as edited, slice_index_or};
ghost use Rattle.cubes.specs.Cubes.{covers as covers_all};
ghost use Rattle.moves.specs.Items.{no_item};
ghost use Rattle.tending.specs.Items.{spared_but, only_at};
ghost use Rattle.tending.specs.Solutions.{SameAreas, BehindStays, items, cube_left};

use crate::solution::Solution;
use cubes::cube::covers;
use parts::Part;

impl<P: Part> Solution<'_, P> {
    // Copies the cube at place `from`, with its card, to place `to`.
    fn move_item(&mut self, from: usize, to: usize)
        requires source { from < self.old.n }
        requires place { to < self.old.n }
        ensures items { items P.set self.new ≡ edited (items P.set self.old) to (slice_index_or (items P.set self.old) from no_item) }
        ensures n { self.new.n ≡ self.old.n }
        ensures areas { SameAreas self.old self.new }
        ensures behind { BehindStays self.old self.new }
    {
        let p = self.p;
        let cubes = &mut *self.cubes;
        cubes.copy_within(from * p..from * p + p, to * p);
        self.cards[to] = self.cards[from];
    }

    /// Removes the cube at place `i`, with its card: those behind it close up.
    pub fn take_out(&mut self, i: usize)
        requires { i < self.old.n }
        ensures items { items P.set self.new ≡ take i (items P.set self.old) ++ drop (suc i) (items P.set self.old) }
        ensures n { self.new.n ≡ self.old.n - 1 }
        ensures areas { SameAreas self.old self.new }
        ensures behind { BehindStays self.old self.new }
    {
        let (p, n) = (self.p, self.n);
        let cubes = &mut *self.cubes;
        cubes.copy_within((i + 1) * p..n * p, i * p);
        let cards = &mut *self.cards;
        cards.copy_within(i + 1..n, i);
        self.n -= 1;
    }

    // Removes every other cube that the one at `at` covers: the rest close up.
    // k is counted by hand: the cubes lie in lent slices, which have no `retain`.
    fn close_up(&mut self, at: usize)
        requires { at < self.old.n }
        ensures items { items P.set self.new ≡ spared_but (cube_left P.set at self.old) at (items P.set self.old) }
        ensures areas { SameAreas self.old self.new }
        ensures behind { BehindStays self.old self.new }
    {
        let mut k = 0;
        let mut lead = at;
        for i in 0..self.n {
            if i == at || !self.covers(lead, i) {
                self.move_item(i, k);
                if i == at {
                    lead = k;
                }
                k += 1;
            }
        }
        self.n = k;
    }

    // Whether the cube at place `i` covers the one at place `j`.
    fn covers(&self, i: usize, j: usize) -> bool
        requires first { i < self.now.n }
        requires second { j < self.now.n }
        ensures { result ≡ covers_all (cube_left P.set i self.now) (cube_left P.set j self.now) }
    {
        let cubes = self.left();
        covers(cubes.cube(i), cubes.cube(j))
    }

    /// Marks the cube at `at` as taken, and removes every other cube that it covers: the rest close up with their cards.
    pub fn remove_covered(&mut self, at: usize)
        requires { at < self.old.n }
        ensures items { items P.set self.new ≡ only_at at (items P.set self.old) }
        ensures areas { SameAreas self.old self.new }
        ensures behind { BehindStays self.old self.new }
    {
        self.cards[at].taken = true;
        self.close_up(at);
    }
}
