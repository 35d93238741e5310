//! Open.
ghost use Rattle.std.specs.Prelude.{◌≡◌, ◌*◌, map, length, drop};
ghost use Rattle.session.specs.Calls.{leaving, opening};
ghost use Rattle.session.specs.Exact.{OpensExactly};
ghost use Rattle.session.specs.States.{filling, opened_answer};
ghost use Rattle.session.specs.Stays.{off_written, solution_written, work_written};

use crate::types::{Open, Table};
use cubes::list::Cubes;
use faults::{Fault, Layer};
use parts::Part;
use table::areas::Lengths;
use table::card::Card;
use table::off::off_list;
use table::open::{check_open, copy_on_rows};
use table::row::area_length;
use table::rows::Rows;

/// Opens a table: its off list goes to the off area (3), and its ON rows to the solution (4, with its cards) as the solution to start with;
/// the work area (5, with its numbers) is used and cleared. Refuses `area` and `off`; after `off` the off area holds the cubes that fit, and
/// the work area is cleared.
// Slices, not a bundle of areas: each call names those that it uses, and a bundle would ask its callers to lend all of them together.
pub fn open<P: Part>(
    t: Table,
    universe: &[P],
    table: &[P],
    rows: &[Card],
    off: &mut [P],
    solution: &mut [P],
    cards: &mut [Card],
    work: &mut [P],
    numbers: &mut [usize],
) -> Result<Open, (Table, Fault)>
    ensures leaves { leaving (opened_answer result) (map P.set off.new) (map P.set solution.new) cards.new (map P.set work.new) numbers.new ≡ opening (filling t) (map P.set universe.now) (map P.set table.now) rows.now (map P.set off.old) (map P.set solution.old) cards.old (map P.set work.old) numbers.old }
    ensures off_stays { drop (off_written (opened_answer result)) off.new ≡ drop (off_written (opened_answer result)) off.old }
    ensures solution_stays { drop (solution_written (opened_answer result)) solution.new ≡ drop (solution_written (opened_answer result)) solution.old }
    ensures work_stays { drop (work_written (opened_answer result) (length work.old) (length numbers.old)) work.new ≡ drop (work_written (opened_answer result) (length work.old) (length numbers.old)) work.old }
    ensures exact { OpensExactly P.MOST (opened_answer result) (map P.set universe.now) (map P.set table.now) rows.now (map P.set off.new) (map P.set solution.new) }
{
    let p = t.p;
    let n = t.rows;
    let has = Lengths {
        universe: universe.len(),
        table: area_length(p, table.len(), rows.len()),
        solution: area_length(p, solution.len(), cards.len()),
        work: area_length(p, work.len(), numbers.len()),
        ..Lengths::default()
    };
    if let Err(cause) = check_open(p, n, rows, has) {
        return Err((t, cause.by(Layer::Engine)));
    }
    let cubes = Cubes::new(table, p, n);
    let list = Rows::new(cubes, rows);
    let off = match off_list(universe, &list.cubes, off, work, numbers) {
        Ok(off) => off,
        Err(cause) => return Err((t, cause.by(Layer::Engine))),
    };
    let count = copy_on_rows(&list, solution, cards);
    let Table { p, rows } = t;
    Ok(Open {
        p,
        rows,
        off,
        count,
    })
}
