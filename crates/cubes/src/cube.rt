//! Tests on two cubes, part by part. Each goes over the parts of one, as far as both have any, and takes the other's by number: over both by
//! `zip` each turn has two end tests, and Open takes a tenth to two thirds more instructions.
ghost use Rattle.std.specs.Prelude.{◌≡◌, map};
ghost use Rattle.cubes.specs.Cubes.{covers as covers_all, meets as meets_all};

use parts::{Part, lies_within, shares_value};

/// Whether each part of `b` lies within that part of `a`.
pub fn covers<P: Part>(a: &[P], b: &[P]) -> bool
    ensures { result ≡ covers_all (map P.set a.now) (map P.set b.now) }
{
    let both = a.len().min(b.len());
    for (i, x) in a[..both].iter().enumerate() {
        let y = b[i];
        if !lies_within(y, *x) {
            return false;
        }
    }
    true
}

/// Whether `a` and `b` share a value in every part.
pub fn meets<P: Part>(a: &[P], b: &[P]) -> bool
    ensures { result ≡ meets_all (map P.set a.now) (map P.set b.now) }
{
    let both = a.len().min(b.len());
    for (i, x) in a[..both].iter().enumerate() {
        let y = b[i];
        if !shares_value(*x, y) {
            return false;
        }
    }
    true
}
