//! The over-expanded cube: each part as far as the off list lets it grow while the other parts stay.
//! It is kept as words: that 16 of them fit in memory is known, and of parts of any kind it is not.
ghost use Rattle.std.specs.Prelude.{◌≡◌, ◌≤◌, false, map, length, take};
ghost use Rattle.parts.specs.Models.{word_set};
ghost use Rattle.cubes.specs.Lists.{sets_of};
ghost use Rattle.moves.specs.Widen.{touches};
ghost use Rattle.moves.specs.Expand.{over as over_all};

use crate::apart::blocking_part;
use cubes::list::Cubes;
use parts::{Part, Word, word_of};

/// The over-expanded cube of `f`, which meets no off cube.
pub fn over_expanded<P: Part>(universe: &[P], off: &Cubes<P>, f: &[P]) -> [Word; 16]
    requires few { off.now.p ≤ 16 }
    requires size { length f.now ≡ off.now.p }
    requires whole { off.now.p ≤ length universe.now }
    requires apart { touches (map P.set f.now) (sets_of P.set off.now) ≡ false }
    ensures { take off.now.p (map word_set result) ≡ over_all (take off.now.p (map P.set universe.now)) (map P.set f.now) (sets_of P.set off.now) }
{
    // No heap: room for as many parts as there can be.
    let mut over = [Word(0); 16];
    write_over_expanded(universe, off, f, &mut over[..off.width()]);
    over
}

/// Makes `over` the over-expanded cube of `f`, which meets no off cube, in one pass over the off list.
pub fn write_over_expanded<P: Part>(universe: &[P], off: &Cubes<P>, f: &[P], over: &mut [Word])
    requires size { length f.now ≡ off.now.p }
    requires whole { off.now.p ≤ length universe.now }
    requires room { length over.old ≡ off.now.p }
    requires apart { touches (map P.set f.now) (sets_of P.set off.now) ≡ false }
    ensures { map word_set over.new ≡ over_all (take off.now.p (map P.set universe.now)) (map P.set f.now) (sets_of P.set off.now) }
{
    for (k, u) in universe[..off.width()].iter().enumerate() {
        over[k] = Word(word_of(*u));
    }
    for r in off.iter() {
        if let Some(k) = blocking_part(f, r) {
            over[k] = over[k].outside(Word(word_of(r[k])));
        }
    }
}
