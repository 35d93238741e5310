//! One cube of the solution grown: part after part, the lightest first, each widened against the cube as it then is.
ghost use Rattle.std.specs.Prelude.{◌≡◌, ◌+◌, ◌*◌, ◌<◌, ◌≤◌, false, map, length, take, drop};
ghost use Rattle.cubes.specs.Areas.{cubes, cube_at, put_at};
ghost use Rattle.cubes.specs.Lists.{sets_of};
ghost use Rattle.moves.specs.Widen.{touches};
ghost use Rattle.moves.specs.Expand.{grown};
ghost use Rattle.growth.specs.Others.{others};

use crate::over::over_expanded;
use crate::weigh::part_weights;
use crate::widen::widen;
use cubes::list::Cubes;
use orders::search::lightest_part;
use parts::Part;

/// Grows the cube at place `at` of the solution, which meets no off cube, beside the other cubes.
pub fn grow<P: Part>(universe: &[P], off: &Cubes<P>, n: usize, at: usize, solution: &mut [P])
    requires few { off.now.p ≤ 16 }
    requires place { at < n }
    requires whole { off.now.p ≤ length universe.now }
    requires room { n * off.now.p ≤ length solution.old }
    requires apart { touches (cube_at off.now.p at (map P.set solution.old)) (sets_of P.set off.now) ≡ false }
    ensures sets { map P.set solution.new ≡ put_at off.now.p at (grown (take off.now.p (map P.set universe.now)) (sets_of P.set off.now) (cube_at off.now.p at (map P.set solution.old)) (others at (cubes off.now.p n (map P.set solution.old)))) (map P.set solution.old) }
    ensures before { take (at * off.now.p) solution.new ≡ take (at * off.now.p) solution.old }
    ensures behind { drop (at * off.now.p + off.now.p) solution.new ≡ drop (at * off.now.p + off.now.p) solution.old }
{
    let p = off.width();
    let cubes = Cubes::new(solution, p, n);
    let over = over_expanded(universe, off, cubes.cube(at));
    let weights = part_weights(&over[..p], at, &cubes);
    // No heap: room for as many parts as there can be.
    let mut taken = [false; 16];
    let taken = &mut taken[..p];
    let f = &mut solution[at * p..at * p + p];
    while let Some(k) = lightest_part(&weights[..p], taken) {
        widen(universe, off, k, f);
        taken[k] = true;
    }
}
