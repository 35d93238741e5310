//! Begin.
ghost use Rattle.std.specs.Prelude.{◌≡◌, map, drop, is_ok, if◌then◌else◌};
ghost use Rattle.session.specs.Calls.{begun};
ghost use Rattle.session.specs.States.{begun_answer};

use crate::types::Table;
use faults::{Fault, Layer};
use parts::Part;
use table::begin::begin_universe;

/// Writes the universe (area 1) from its number of parts and their sizes, and begins a table with no row. Refuses `shape` and `area`.
// Sixteen sizes of which the first `p` count, so that a caller needs no heap.
pub fn begin<P: Part>(p: usize, sizes: &[usize; 16], universe: &mut [P]) -> Result<Table, Fault>
    ensures answer { begun_answer result ≡ (begun P.MOST p sizes.now (map P.set universe.old)).answer }
    ensures sets { map P.set universe.new ≡ (begun P.MOST p sizes.now (map P.set universe.old)).universe }
    ensures stays { drop (if is_ok result then p else 0) universe.new ≡ drop (if is_ok result then p else 0) universe.old }
{
    begin_universe(p, sizes, universe).map_err(|cause| cause.by(Layer::Table))?;
    Ok(Table { p, rows: 0 })
}
