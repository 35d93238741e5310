//! Lists of cubes: an area that is read cube by cube.
ghost use Rattle.std.specs.Prelude.{◌≡◌, ◌-◌, ◌*◌, ◌^◌, ◌<◌, ◌≤◌, length, drop};
ghost use Rattle.std.specs.Iterator.{YieldsFirstRef, item_count};
ghost use Rattle.cubes.specs.Areas.{cubes, cube_at};

use crate::area::cube_at;
use parts::Part;

/// The first `n` cubes of an area, each of `p` parts.
#[derive(Drop)]
pub struct Cubes<'a, P> {
    parts: &'a [P],
    p: usize,
    n: usize,
    ghost fits: { n * p ≤ length parts.now },
    ghost counted: { n < 2 ^ 64 },
}

impl<'a, P: Part> Cubes<'a, P> {
    /// The first `n` cubes of `area`, each of `p` parts.
    pub fn new(area: &'a [P], p: usize, n: usize) -> Cubes<'a, P>
        requires { n * p ≤ length area.now }
        ensures parts { result.parts.now ≡ area.now }
        ensures p { result.p ≡ p }
        ensures n { result.n ≡ n }
    {
        Cubes { parts: area, p, n }
    }

    /// How many cubes there are.
    pub fn len(&self) -> usize
        ensures { result ≡ self.now.n }
    {
        self.n
    }

    /// How many parts each has.
    pub fn width(&self) -> usize
        ensures { result ≡ self.now.p }
    {
        self.p
    }

    /// The cube at place `i`.
    pub fn cube(&self, i: usize) -> &[P]
        requires { i < self.now.n }
        ensures { result.now ≡ cube_at self.now.p i self.now.parts.now }
    {
        cube_at(self.parts, i, self.p)
    }

    /// The cubes from place `i` on.
    pub fn after(&self, i: usize) -> Cubes<'_, P>
        requires { i ≤ self.now.n }
        ensures cubes { cubes result.p result.n result.parts.now ≡ drop i (cubes self.now.p self.now.n self.now.parts.now) }
        ensures p { result.p ≡ self.now.p }
        ensures n { result.n ≡ self.now.n - i }
    {
        Cubes {
            parts: &self.parts[i * self.p..],
            p: self.p,
            n: self.n - i,
        }
    }

    /// The cubes, one after another.
    pub fn iter(&self) -> CubesIter<'_, P>
        ensures rest { cubes result.p result.n result.rest.now ≡ cubes self.now.p self.now.n self.now.parts.now }
        ensures bound { length (cubes result.p result.n result.rest.now) < 2 ^ 64 }
    {
        CubesIter {
            rest: self.parts,
            p: self.p,
            n: self.n,
        }
    }
}

/// The cubes of a list that are still to come.
#[derive(Drop)]
pub struct CubesIter<'a, P> {
    rest: &'a [P],
    p: usize,
    n: usize,
    ghost fits: { n * p ≤ length rest.now },
}

impl<'a, P> Iterator for CubesIter<'a, P> {
    type Item = &'a [P];

    ghost next_gives = { YieldsFirstRef (λ i. cubes i.p i.n i.rest.now) };

    ghost remaining = { item_count (λ i. cubes i.p i.n i.rest.now) };

    fn next(&mut self) -> Option<&'a [P]> {
        if self.n == 0 {
            return None;
        }
        let (first, rest) = self.rest.split_at(self.p);
        *self = CubesIter {
            rest,
            p: self.p,
            n: self.n - 1,
        };
        Some(first)
    }
}
