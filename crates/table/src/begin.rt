//! Begin: a universe from its sizes.
ghost use Rattle.std.specs.Prelude.{◌≡◌, ℕ, ◌≤◌, map, length, drop, is_ok, if◌then◌else◌, Ok};
ghost use Rattle.cubes.specs.Areas.{overlay};
ghost use Rattle.parts.specs.Sets.{whole as whole_of};
ghost use Rattle.table.specs.Filling.{shape_verdict, area_verdict, begin_verdict, universe_of};

use faults::Cause;
use parts::Part;

/// Whether an area of this length has what is needed.
// The area is named by any number: an enum would ask more of callers.
pub fn check_area(area: usize, has: usize, needed: usize) -> Result<(), Cause>
    ensures { result ≡ area_verdict area has needed }
{
    if has < needed {
        return Err(Cause::Area { area, needed });
    }
    Ok(())
}

/// Whether the number of parts is 1 to 16, and the size of each of them 1 to the kind's most.
// Sizes and their number as `session::begin` takes them.
pub fn check_shape<P: Part>(p: usize, sizes: &[usize; 16]) -> Result<(), Cause>
    ensures { result ≡ shape_verdict P.MOST p sizes.now }
{
    if p < 1 || p > 16 {
        return Err(Cause::Shape {
            first: p,
            second: 0,
        });
    }
    let most = P::MOST as usize;
    for (k, size) in sizes[..p].iter().enumerate() {
        if *size < 1 || *size > most {
            return Err(Cause::Shape {
                first: k,
                second: *size,
            });
        }
    }
    Ok(())
}

// All values below a size.
fn whole<P: Part>(size: usize) -> P
    requires { (1 ≤ size) × (size ≤ P.MOST) }
    ensures { P.set result ≡ whole_of size }
{
    P::make(parts::whole(size))
}

// Writes the universe of sizes that were checked.
fn write_universe<P: Part>(p: usize, sizes: &[usize; 16], universe: &mut [P])
    requires shape { shape_verdict P.MOST p sizes.now ≡ Ok tt }
    requires room { p ≤ length universe.old }
    ensures sets { map P.set universe.new ≡ overlay (universe_of p sizes.now) (map P.set universe.old) }
    ensures stays { drop p universe.new ≡ drop p universe.old }
{
    for (k, size) in sizes[..p].iter().enumerate() {
        universe[k] = whole(*size);
    }
}

/// Writes the universe, or refuses and writes nothing.
pub fn begin_universe<P: Part>(
    p: usize,
    sizes: &[usize; 16],
    universe: &mut [P],
) -> Result<(), Cause>
    ensures answer { result ≡ begin_verdict P.MOST p sizes.now (length universe.old) }
    ensures sets { map P.set universe.new ≡ (if is_ok result then overlay (universe_of p sizes.now) (map P.set universe.old) else map P.set universe.old) }
    ensures stays { drop (if is_ok result then p else 0) universe.new ≡ drop (if is_ok result then p else 0) universe.old }
{
    check_shape::<P>(p, sizes)?;
    check_area(1, universe.len(), p)?;
    write_universe(p, sizes, universe);
    Ok(())
}
