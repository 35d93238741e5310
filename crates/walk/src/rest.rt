//! The rest of a cube against a list of rows.
ghost use Rattle.std.specs.Prelude.{◌≡◌, ◌+◌, ◌-◌, ◌*◌, ◌<◌, ◌≤◌, min, map, length, take, drop};
ghost use Rattle.cubes.specs.Areas.{cube_at, flat, overlay};
ghost use Rattle.cubes.specs.Cubes.{rest};
ghost use Rattle.cubes.specs.Lists.{sets_of};
ghost use Rattle.walk.specs.Look.{look_of};
ghost use Rattle.walk.specs.Written.{count_if_whole};

use crate::stack::Stack;
use cubes::area::copy_cube;
use cubes::cube::{covers, meets};
use cubes::list::Cubes;
use parts::Part;

/// What the rows from a number on do to a piece.
// Three cases, each with its own step: no `Option`, which has two.
#[derive(Clone, Copy)]
pub(crate) enum Look {
    /// Some row covers all of it: nothing is left.
    Gone,
    /// The first row that meets it.
    Cut(usize),
    /// No row meets it.
    Free,
}

/// More cubes are left than may be written.
#[derive(Clone, Copy)]
pub struct TooMany;

/// What the rows from `from` on do to the piece `c`.
pub(crate) fn look_ahead<P: Part>(c: &[P], list: &Cubes<P>, from: usize) -> Look
    requires { from ≤ list.now.n }
    ensures { result ≡ look_of (map P.set c.now) from (drop from (sets_of P.set list.now)) }
{
    let mut first = Look::Free;
    for (j, row) in list.after(from).iter().enumerate() {
        if meets(c, row) {
            if covers(row, c) {
                return Look::Gone;
            }
            if let Look::Free = first {
                first = Look::Cut(from + j);
            }
        }
    }
    first
}

/// Writes what is left of the first cube of `work` outside the rows of `list` to `out`, in cubes that do not meet, up to `most` of them.
/// The answer is how many they are. `work` and `numbers` are used up.
pub fn rest_of<P: Part>(
    work: &mut [P],
    numbers: &mut [usize],
    list: &Cubes<P>,
    out: &mut [P],
    most: usize,
) -> Result<usize, TooMany>
    requires some { 0 < list.now.p }
    requires fits { (1 + (list.now.p - 1) * list.now.n) * list.now.p ≤ length work.old }
    requires room { 1 + (list.now.p - 1) * list.now.n ≤ length numbers.old }
    requires space { most * list.now.p ≤ length out.old }
    ensures answer { result ≡ count_if_whole most (rest (cube_at list.now.p 0 (map P.set work.old)) (sets_of P.set list.now)) }
    ensures written { map P.set out.new ≡ overlay (flat (take most (rest (cube_at list.now.p 0 (map P.set work.old)) (sets_of P.set list.now)))) (map P.set out.old) }
    ensures stays { drop (min most (length (rest (cube_at list.now.p 0 (map P.set work.old)) (sets_of P.set list.now))) * list.now.p) out.new ≡ drop (min most (length (rest (cube_at list.now.p 0 (map P.set work.old)) (sets_of P.set list.now))) * list.now.p) out.old }
{
    let p = list.width();
    numbers[0] = 0;
    let mut stack = Stack {
        work,
        numbers,
        p,
        depth: 1,
    };
    let mut count = 0;
    while let Some((piece, next)) = stack.top() {
        match look_ahead(piece, list, next) {
            Look::Gone => stack.pop(),
            Look::Cut(j) => stack.cut(list.cube(j), j + 1),
            Look::Free => {
                if count == most {
                    return Err(TooMany);
                }
                copy_cube(out, count, p, piece);
                count += 1;
                stack.pop();
            }
        }
    }
    Ok(count)
}
