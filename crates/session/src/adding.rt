//! Add.
ghost use Rattle.std.specs.Prelude.{◌≡◌, ◌+◌, ◌*◌, map, take, drop, is_ok, if◌then◌else◌};
ghost use Rattle.session.specs.Calls.{added};
ghost use Rattle.session.specs.States.{filling, added_answer};

use crate::types::Table;
use faults::{Fault, Layer};
use parts::Part;
use table::card::{Card, Kind};
use table::row::add_row;

/// Adds a row to the table (area 2, with its cards `rows`), made from the first words, one for each part. Refuses `area`, `empty`,
/// `outside`, `repeat` and `full`.
pub fn add<P: Part>(
    t: Table,
    kind: Kind,
    words: &[u64; 16],
    universe: &[P],
    table: &mut [P],
    rows: &mut [Card],
) -> Result<Table, (Table, Fault)>
    ensures answer { added_answer result ≡ (added P.MOST (filling t) kind words.now (map P.set universe.now) (map P.set table.old) rows.old).answer }
    ensures sets { map P.set table.new ≡ (added P.MOST (filling t) kind words.now (map P.set universe.now) (map P.set table.old) rows.old).table }
    ensures cards { rows.new ≡ (added P.MOST (filling t) kind words.now (map P.set universe.now) (map P.set table.old) rows.old).rows }
    ensures before { take (t.rows * t.p) table.new ≡ take (t.rows * t.p) table.old }
    ensures behind { drop (if is_ok result then t.rows * t.p + t.p else 0) table.new ≡ drop (if is_ok result then t.rows * t.p + t.p else 0) table.old }
{
    let p = t.p;
    let at = t.rows;
    let all = &words[..];
    match add_row(p, at, kind, &all[..p], universe, table, rows) {
        Ok(()) => {
            let Table { p, rows } = t;
            Ok(Table { p, rows: rows + 1 })
        }
        Err(cause) => Err((t, cause.by(Layer::Table))),
    }
}
