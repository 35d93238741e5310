//! Areas: slices that hold cubes of `p` parts, one after another.
ghost use Rattle.std.specs.Prelude.{◌≡◌, ◌+◌, ◌*◌, ◌≤◌, map, length, replicate};
ghost use Rattle.cubes.specs.Areas.{cube_at, put_at};

use parts::Part;

/// The cube at place `i` of `area`.
pub fn cube_at<P: Part>(area: &[P], i: usize, p: usize) -> &[P]
    requires { i * p + p ≤ length area.now }
    ensures { result.now ≡ cube_at p i area.now }
{
    &area[i * p..i * p + p]
}

/// Writes the cube `src` at place `i` of `dst`.
// On a slice and no list: `Cubes` reads, and the areas that are written have their counts only when they are filled.
pub fn copy_cube<P: Part>(dst: &mut [P], i: usize, p: usize, src: &[P])
    requires src_len { length src.now ≡ p }
    requires p_in_bounds { i * p + p ≤ length dst.old }
    ensures { dst.new ≡ put_at p i src.now dst.old }
{
    dst[i * p..i * p + p].copy_from_slice(src);
}

/// Makes every part of `area` empty.
// Not `fill`: it clones, and of a clone of a part of any kind nothing is known.
pub fn clear<P: Part>(area: &mut [P])
    ensures { map P.set area.new ≡ replicate (length area.old) 0 }
{
    let none = P::make(0);
    for part in area.iter_mut() {
        *part = none;
    }
}
