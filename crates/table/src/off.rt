//! Open: the off list of a table.
ghost use Rattle.std.specs.Prelude.{◌≡◌, ℕ, ◌+◌, ◌-◌, ◌*◌, ◌≤◌, min, map, length, take, drop, replicate};
ghost use Rattle.cubes.specs.Areas.{overlay, flat};
ghost use Rattle.walk.specs.Written.{count_if_whole};
ghost use Rattle.table.specs.Cards.{area_length};
ghost use Rattle.table.specs.Opening.{off_most};
ghost use Rattle.table.specs.Lists.{off_of, off_answer};

use crate::row::area_length;
use cubes::area::{clear, copy_cube};
use cubes::list::Cubes;
use faults::Cause;
use parts::Part;
use walk::rest::{TooMany, rest_of};

/// The most cubes of an off list.
pub const OFF_MOST: usize = 4096;

// Writes the off list, as far as it fits, and clears what was lent to work in.
fn off_within<P: Part>(
    universe: &[P],
    rows: &Cubes<P>,
    off: &mut [P],
    most: usize,
    work: &mut [P],
    numbers: &mut [usize],
) -> Result<usize, TooMany>
    requires some { 1 ≤ rows.now.p }
    requires full { rows.now.p ≤ length universe.now }
    requires space { most * rows.now.p ≤ length off.old }
    requires fits { (1 + (rows.now.p - 1) * rows.now.n) * rows.now.p ≤ length work.old }
    requires room { 1 + (rows.now.p - 1) * rows.now.n ≤ length numbers.old }
    ensures answer { result ≡ count_if_whole most (off_of P.set universe.now rows.now) }
    ensures off { map P.set off.new ≡ overlay (flat (take most (off_of P.set universe.now rows.now))) (map P.set off.old) }
    ensures off_stays { drop (min most (length (off_of P.set universe.now rows.now)) * rows.now.p) off.new ≡ drop (min most (length (off_of P.set universe.now rows.now)) * rows.now.p) off.old }
    ensures work { map P.set work.new ≡ replicate (length work.old) 0 }
    ensures numbers { numbers.new ≡ replicate (length numbers.old) 0 }
{
    let p = rows.width();
    copy_cube(work, 0, p, &universe[..p]);
    let answer = rest_of(work, numbers, rows, off, most);
    clear(work);
    numbers.fill(0);
    answer
}

/// Writes the off list, as far as it fits, and clears the work area. The answer is how many cubes it has; refused is one that does not fit.
pub fn off_list<P: Part>(
    universe: &[P],
    rows: &Cubes<P>,
    off: &mut [P],
    work: &mut [P],
    numbers: &mut [usize],
) -> Result<usize, Cause>
    requires some { 1 ≤ rows.now.p }
    requires full { rows.now.p ≤ length universe.now }
    requires room { 1 + (rows.now.p - 1) * rows.now.n ≤ area_length rows.now.p (length work.old) (length numbers.old) }
    ensures answer { result ≡ off_answer (off_most rows.now.p (length off.old)) (off_of P.set universe.now rows.now) }
    ensures off { map P.set off.new ≡ overlay (flat (take (off_most rows.now.p (length off.old)) (off_of P.set universe.now rows.now))) (map P.set off.old) }
    ensures off_stays { drop (min (off_most rows.now.p (length off.old)) (length (off_of P.set universe.now rows.now)) * rows.now.p) off.new ≡ drop (min (off_most rows.now.p (length off.old)) (length (off_of P.set universe.now rows.now)) * rows.now.p) off.old }
    ensures work { map P.set work.new ≡ overlay (replicate (area_length rows.now.p (length work.old) (length numbers.old) * rows.now.p) 0) (map P.set work.old) }
    ensures work_stays { drop (area_length rows.now.p (length work.old) (length numbers.old) * rows.now.p) work.new ≡ drop (area_length rows.now.p (length work.old) (length numbers.old) * rows.now.p) work.old }
    ensures numbers { numbers.new ≡ overlay (replicate (area_length rows.now.p (length work.old) (length numbers.old)) 0) numbers.old }
{
    let p = rows.width();
    let has = area_length(p, work.len(), numbers.len());
    let most = OFF_MOST.min(off.len() / p);
    let work = &mut work[..has * p];
    let numbers = &mut numbers[..has];
    off_within(universe, rows, off, most, work, numbers).map_err(|_| Cause::Off { most })
}
