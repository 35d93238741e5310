//! The weight of each part of a cube: how many other cubes that may be covered one day lie within it there already.
ghost use Rattle.std.specs.Prelude.{◌≡◌, ℕ, ◌+◌, ◌<◌, ◌≤◌, map, length, if◌then◌else◌, ◌==◌, slice_index};
ghost use Rattle.parts.specs.Models.{word_set};
ghost use Rattle.parts.specs.Sets.{minus};
ghost use Rattle.cubes.specs.Areas.{cube_at};
ghost use Rattle.cubes.specs.Cubes.{covers};
ghost use Rattle.cubes.specs.Lists.{sets_of};
ghost use Rattle.moves.specs.Expand.{part_weight};
ghost use Rattle.growth.specs.Others.{others};

use cubes::list::Cubes;
use parts::{Part, Word, lies_within};

/// Adds one to the weight of each part of the cube that lies within that of `f`.
pub(crate) fn add_weights<P: Part>(cube: &[P], f: &[P], weights: &mut [usize])
    requires cube { length cube.now ≡ length weights.old }
    requires f { length f.now ≡ length weights.old }
    requires room { (k : ℕ) → k < length weights.old → slice_index weights.old k < usize.MAX }
    ensures { (k : ℕ) → k < length weights.old → slice_index weights.new k ≡ slice_index weights.old k + (if minus (slice_index (map P.set cube.now) k) (slice_index (map P.set f.now) k) == 0 then 1 else 0) }
{
    for (k, (x, y)) in cube.iter().zip(f).enumerate() {
        if lies_within(*x, *y) {
            weights[k] += 1;
        }
    }
}

/// Whether each part of the cube lies within its word.
// Not `covers`: that is of two cubes of one kind, and to make words of the parts walks every value of each, which a part of a word does not.
pub(crate) fn within_words<P: Part>(cube: &[P], words: &[Word]) -> bool
    ensures { result ≡ covers (map word_set words.now) (map P.set cube.now) }
{
    cube.iter()
        .zip(words)
        .all(|(x, w)| lies_within(*x, P::make(w.0)))
}

/// For each part the number of other cubes that `over` covers and whose part lies within that of the cube at place `at`.
pub fn part_weights<P: Part>(over: &[Word], at: usize, solution: &Cubes<P>) -> [usize; 16]
    requires few { solution.now.p ≤ 16 }
    requires place { at < solution.now.n }
    ensures { (k : ℕ) → k < solution.now.p → slice_index result k ≡ part_weight (map word_set over.now) (cube_at solution.now.p at (map P.set solution.now.parts.now)) (others at (sets_of P.set solution.now)) k }
{
    // No heap: room for as many parts as there can be.
    let mut weights = [0; 16];
    write_part_weights(over, at, solution, &mut weights[..solution.width()]);
    weights
}

/// Makes the weight of each part the number of other cubes that `over` covers and whose part lies within that of the cube at place `at`.
pub fn write_part_weights<P: Part>(
    over: &[Word],
    at: usize,
    solution: &Cubes<P>,
    weights: &mut [usize],
)
    requires place { at < solution.now.n }
    requires size { length weights.old ≡ solution.now.p }
    ensures { (k : ℕ) → k < solution.now.p → slice_index weights.new k ≡ part_weight (map word_set over.now) (cube_at solution.now.p at (map P.set solution.now.parts.now)) (others at (sets_of P.set solution.now)) k }
{
    weights.fill(0);
    let f = solution.cube(at);
    for (i, cube) in solution.iter().enumerate() {
        if i != at && within_words(cube, over) {
            add_weights(cube, f, weights);
        }
    }
}
