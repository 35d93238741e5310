//! Tests on a cube beside another.
ghost use Rattle.std.specs.Prelude.{◌≡◌, map, length};
ghost use Rattle.moves.specs.Widen.{beside};
ghost use Rattle.growth.specs.Missed.{only_missed, Once};

use cubes::cube::meets;
use parts::{Part, shares_value};

/// The part in which the cubes share no value, where there is exactly one such part.
pub fn blocking_part<P: Part>(f: &[P], r: &[P]) -> Option<usize>
    requires { length f.now ≡ length r.now }
    ensures value { result ≡ only_missed 0 (map P.set f.now) (map P.set r.now) }
    ensures once { Once (map P.set f.now) (map P.set r.now) result }
{
    let k = f.iter().zip(r).position(|(x, y)| !shares_value(*x, *y))?;
    meets(&f[k + 1..], &r[k + 1..]).then_some(k)
}

/// Whether the cubes share a value in each part but `k`.
pub fn meets_beside<P: Part>(f: &[P], r: &[P], k: usize) -> bool
    requires { length f.now ≡ length r.now }
    ensures { result ≡ beside k (map P.set f.now) (map P.set r.now) }
{
    f.iter()
        .zip(r)
        .enumerate()
        .all(|(i, (x, y))| i == k || shares_value(*x, *y))
}
