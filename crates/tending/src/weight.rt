//! Weights: how many values a cube shares with the cubes of a solution.
ghost use Rattle.std.specs.Prelude.{◌≡◌, ◌*◌, ◌≤◌, map, length};
ghost use Rattle.cubes.specs.Lists.{sets_of};
ghost use Rattle.moves.specs.Items.{shared, weighed};

use cubes::list::Cubes;
use parts::Part;

/// How many values two cubes share, counted over the parts.
pub fn shared_values<P: Part>(a: &[P], b: &[P]) -> usize
    requires { length a.now ≤ 16 }
    ensures value { result ≡ shared (map P.set a.now) (map P.set b.now) }
    ensures most { result ≤ 64 * length a.now }
{
    a.iter()
        .zip(b)
        .map(|(x, y)| x.common(*y).count() as usize)
        .sum()
}

/// How many values a cube shares with each cube of a list.
pub fn weigh<P: Part>(cube: &[P], cubes: &Cubes<P>) -> usize
    requires few { length cube.now ≤ 16 }
    requires most { cubes.now.n ≤ 512 }
    ensures value { result ≡ weighed (map P.set cube.now) (sets_of P.set cubes.now) }
    ensures most { result ≤ 1024 * cubes.now.n }
{
    cubes.iter().map(|d| shared_values(cube, d)).sum()
}
