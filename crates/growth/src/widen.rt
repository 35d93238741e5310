//! A cube widened in one part, as far as the off list lets it.
ghost use Rattle.std.specs.Prelude.{◌≡◌, ◌<◌, ◌≤◌, map, length, slice_index};
ghost use Rattle.cubes.specs.Lists.{sets_of};
ghost use Rattle.moves.specs.Widen.{blocked, widened};

use crate::apart::meets_beside;
use cubes::list::Cubes;
use parts::Part;

/// The values of part `k` of the off cubes that meet `f` in every other part.
pub(crate) fn blocked_values<P: Part>(off: &Cubes<P>, k: usize, f: &[P]) -> P
    requires part { k < off.now.p }
    requires size { length f.now ≡ off.now.p }
    ensures { P.set result ≡ blocked k (map P.set f.now) (sets_of P.set off.now) }
{
    let mut values = P::make(0);
    for r in off.iter() {
        if meets_beside(f, r, k) {
            values = values.joined(r[k]);
        }
    }
    values
}

/// Makes part `k` of the cube `f` the universe's, without the values of the off cubes that meet `f` in every other part.
pub fn widen<P: Part>(universe: &[P], off: &Cubes<P>, k: usize, f: &mut [P])
    requires part { k < off.now.p }
    requires whole { off.now.p ≤ length universe.now }
    requires size { length f.old ≡ off.now.p }
    ensures { map P.set f.new ≡ widened k (slice_index (map P.set universe.now) k) (map P.set f.old) (sets_of P.set off.now) }
{
    let values = blocked_values(off, k, f);
    f[k] = universe[k].outside(values);
}
