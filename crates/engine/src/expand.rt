//! Expand: every cube is taken in order, made as large as the off list lets it become, and the others that it covers are removed.
ghost use Rattle.std.specs.Prelude.{◌≡◌, suc, ◌*◌, ◌<◌, ◌≤◌, map, length, take, drop, slice_index_or};
ghost use Rattle.cubes.specs.Lists.{sets_of};
ghost use Rattle.moves.specs.Calls.{expand as expanded_list};
ghost use Rattle.moves.specs.Expand.{expanding};
ghost use Rattle.moves.specs.Items.{no_item, waits, first_of};
ghost use Rattle.moves.specs.Sound.{Apart};
ghost use Rattle.tending.specs.Solutions.{SameAreas, BehindStays, items, left};

use cubes::list::Cubes;
use growth::grow::grow;
use orders::search::first_waiting;
use orders::{Direction, Order};
use parts::Part;
use tending::solution::Solution;

// Takes the cube at place `at`.
fn expand_one<P: Part>(universe: &[P], off: &Cubes<P>, at: usize, solution: &mut Solution<P>)
    requires few { solution.old.p ≤ 16 }
    requires place { at < solution.old.n }
    requires whole { solution.old.p ≤ length universe.now }
    requires wide { off.now.p ≡ solution.old.p }
    requires apart { Apart (sets_of P.set off.now) (left P.set solution.old) }
    ensures items { items P.set solution.new ≡ expanding (take solution.old.p (map P.set universe.now)) (sets_of P.set off.now) (take at (items P.set solution.old)) (slice_index_or (items P.set solution.old) at no_item) (drop (suc at) (items P.set solution.old)) }
    ensures apart { Apart (sets_of P.set off.now) (left P.set solution.new) }
    ensures areas { SameAreas solution.old solution.new }
    ensures behind { BehindStays solution.old solution.new }
{
    let n = solution.n;
    let cubes = &mut *solution.cubes;
    grow(universe, off, n, at, cubes);
    solution.remove_covered(at);
}

// Where the first of the cubes stands that are not taken.
fn first_left<P: Part, O: Order>(order: &O, solution: &Solution<P>) -> Option<usize>
    ensures { result ≡ first_of waits (O.before order.now) (items P.set solution.now) }
{
    first_waiting(order, Direction::Along, solution.cards_left())
}

/// Expands the cubes of the solution, none of which meets an off cube.
pub fn expand_cubes<P: Part, O: Order>(
    order: &O,
    universe: &[P],
    off: &Cubes<P>,
    solution: &mut Solution<P>,
)
    requires few { solution.old.p ≤ 16 }
    requires most { solution.old.n ≤ 512 }
    requires whole { solution.old.p ≤ length universe.now }
    requires wide { off.now.p ≡ solution.old.p }
    requires apart { Apart (sets_of P.set off.now) (left P.set solution.old) }
    ensures list { left P.set solution.new ≡ expanded_list (O.before order.now) (take solution.old.p (map P.set universe.now)) (sets_of P.set off.now) (left P.set solution.old) }
    ensures areas { SameAreas solution.old solution.new }
    ensures behind { BehindStays solution.old solution.new }
{
    solution.start();
    while let Some(at) = first_left(order, solution) {
        expand_one(universe, off, at, solution);
    }
}
