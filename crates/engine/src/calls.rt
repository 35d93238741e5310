//! The calls on plain numbers and slices: the checks in their order, the work, and the end of a call.
ghost use Rattle.std.specs.Prelude.{◌≡◌, ◌*◌, ◌≤◌, map, length, take, drop, is_ok, false, IfOk, if◌then◌else◌};
ghost use Rattle.cubes.specs.Areas.{cubes as cubes_in};
ghost use Rattle.moves.specs.Calls.{expand as expanded_list};
ghost use Rattle.moves.specs.Sound.{Apart};
ghost use Rattle.engine.specs.Calls.{Moved, moved_by, expand_call};
ghost use Rattle.engine.specs.Foreign.{foreign_verdict};

use crate::areas::{Lengths, check_areas};
use crate::expand::expand_cubes;
use crate::foreign::check_foreign;
use cubes::list::Cubes;
use faults::Cause;
use orders::Order;
use parts::Part;
use table::card::Card;
use table::row::area_length;
use tending::solution::Solution;

// Expand on areas that were checked. Those of the solution and its cards come cut to its length: had they been cut in here, a proof would
// know nothing of them afterwards.
fn expand_areas<P: Part, O: Order>(
    p: usize,
    offs: usize,
    order: &O,
    universe: &[P],
    off: &[P],
    cubes: &mut [P],
    cards: &mut [Card],
) -> Result<usize, Cause>
    requires few { p ≤ 16 }
    requires most { length cards.old ≤ 512 }
    requires whole { p ≤ length universe.now }
    requires fits { offs * p ≤ length off.now }
    requires exact { length cubes.old ≡ length cards.old * p }
    ensures leaves { ◌≡◌ {A = Moved} (record { answer = result; solution = map P.set cubes.new; cards = cards.new }) (moved_by (foreign_verdict 0 (cubes_in p offs (map P.set off.now)) (cubes_in p (length cards.old) (map P.set cubes.old))) p (length cards.old) (expanded_list (O.before order.now) (take p (map P.set universe.now)) (cubes_in p offs (map P.set off.now)) (cubes_in p (length cards.old) (map P.set cubes.old))) (map P.set cubes.old) cards.old) }
    ensures stays { is_ok result ≡ false → cubes.new ≡ cubes.old }
    ensures list { IfOk result (λ n. cubes_in p n (map P.set cubes.new) ≡ expanded_list (O.before order.now) (take p (map P.set universe.now)) (cubes_in p offs (map P.set off.now)) (cubes_in p (length cards.old) (map P.set cubes.old))) }
    ensures apart { IfOk result (λ n. Apart (cubes_in p offs (map P.set off.now)) (cubes_in p (length cards.old) (map P.set cubes.old))) }
    ensures fewer { IfOk result (λ n. n ≤ length cards.old) }
{
    let mut solution = Solution::new(p, cards.len(), cubes, cards);
    let off = Cubes::new(off, p, offs);
    check_foreign(&solution.left(), &off)?;
    expand_cubes(order, universe, &off, &mut solution);
    solution.settle();
    Ok(solution.n)
}

/// Expand, of a session with `p` parts, `offs` off cubes and `count` solution cubes; the answer is the cubes left.
// Slices, as the caller lends them: see `session::open`.
pub fn expand_solution<P: Part, O: Order>(
    p: usize,
    offs: usize,
    count: usize,
    order: &O,
    universe: &[P],
    off: &[P],
    solution: &mut [P],
    cards: &mut [Card],
) -> Result<usize, Cause>
    requires some { 1 ≤ p }
    requires few { p ≤ 16 }
    requires most { count ≤ 512 }
    ensures leaves { ◌≡◌ {A = Moved} (record { answer = result; solution = map P.set solution.new; cards = cards.new }) (expand_call (O.before order.now) p offs count (map P.set universe.now) (map P.set off.now) (map P.set solution.old) cards.old) }
    ensures stays { drop (if is_ok result then count * p else 0) solution.new ≡ drop (if is_ok result then count * p else 0) solution.old }
    ensures list { IfOk result (λ n. cubes_in p n (map P.set solution.new) ≡ expanded_list (O.before order.now) (take p (map P.set universe.now)) (cubes_in p offs (map P.set off.now)) (cubes_in p count (map P.set solution.old))) }
    ensures apart { IfOk result (λ n. Apart (cubes_in p offs (map P.set off.now)) (cubes_in p count (map P.set solution.old))) }
    ensures fewer { IfOk result (λ n. n ≤ count) }
{
    let has = Lengths {
        universe: universe.len(),
        off: off.len() / p,
        solution: area_length(p, solution.len(), cards.len()),
        ..Lengths::default()
    };
    let needs = Lengths {
        universe: p,
        off: offs,
        solution: count,
        ..Lengths::default()
    };
    check_areas(has, needs)?;
    expand_areas(
        p,
        offs,
        order,
        universe,
        off,
        &mut solution[..count * p],
        &mut cards[..count],
    )
}
