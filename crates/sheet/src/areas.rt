//! The calls in the bench's areas.
ghost use Rattle.std.specs.Prelude.{◌≡◌, ◌≤◌, replicate, IfOk};
ghost use Rattle.sheet.specs.Bench.{fresh, in_hand, beginning, adding, opening_table};
ghost use Rattle.sheet.specs.Views.{memory, drafted, draft, step};

use crate::refusing::refused;
use crate::stage::Stage;
use crate::types::{Areas, Draft, Sizes, Tally};
use faults::{Fault, Kind};
use parts::{Part, whole};
use session::{add, begin, open};
use std::alloc::{AllocError, Global};
use table::card::Card;

const PARTS: usize = 8;

const ROWS: usize = 32;

const CUBES: usize = 32;

const OFFS: usize = 128;

// So many of a thing. `vec!` would clone, and a clone at a type parameter need not be equal.
fn repeated<T: Copy>(heap: Global, x: T, n: usize) -> Result<Vec<T>, AllocError>
    ensures { IfOk result (λ v. v.items ≡ replicate n x) }
{
    let mut all = Vec::new(heap);
    all.resize(n, x)?;
    Ok(all)
}

/// Areas of the bench's lengths, for `p` parts.
pub(crate) fn fresh_areas<P: Part>(heap: Global, p: usize) -> Result<Areas<P>, AllocError>
    requires { p ≤ 16 }
    ensures { IfOk result (λ a. memory P.set a ≡ fresh p) }
{
    let none = P::make(0);
    let blank = Card::blank();
    let work_cubes = 1 + p.saturating_sub(1) * (ROWS + CUBES);
    let universe = repeated(heap, none, PARTS)?;
    let table = repeated(heap, none, ROWS * p)?;
    let rows = repeated(heap, blank, ROWS)?;
    let off = repeated(heap, none, OFFS * p)?;
    let solution = repeated(heap, none, CUBES * p)?;
    let cards = repeated(heap, blank, CUBES)?;
    let work = repeated(heap, none, work_cubes * p)?;
    let numbers = repeated(heap, 0, work_cubes)?;
    Ok(Areas {
        universe,
        table,
        rows,
        off,
        solution,
        cards,
        work,
        numbers,
    })
}

impl Sizes {
    // The universe as a row of words.
    fn words(&self) -> [u64; 16]
        ensures { result ≡ in_hand self.now.all }
    {
        self.all.map(whole)
    }
}

impl Draft {
    /// Begins the table; the universe is in hand.
    pub(crate) fn begin<P: Part>(sizes: &Sizes, areas: &mut Areas<P>) -> Result<Draft, Fault>
        ensures { draft result (memory P.set areas.new) ≡ beginning P.MOST sizes.now.all sizes.now.p (memory P.set areas.old) }
    {
        let table = begin(sizes.p, &sizes.all, &mut areas.universe)?;
        let row = sizes.words();
        Ok(Draft {
            table,
            p: sizes.p,
            full: row,
            row,
        })
    }

    /// Adds the row in hand. The next one starts from the universe again.
    pub(crate) fn add<P: Part>(
        self,
        kind: Kind,
        areas: &mut Areas<P>,
    ) -> Result<(Stage, Option<Tally>), Fault>
        ensures { step P.MOST result (memory P.set areas.new) ≡ adding P.MOST (drafted self) kind (memory P.set areas.old) }
    {
        let Draft {
            table,
            p,
            full,
            row,
        } = self;
        let added = add(
            table,
            kind,
            &row,
            &areas.universe,
            &mut areas.table,
            &mut areas.rows,
        );
        let table = added.map_err(refused)?;
        let next = Draft {
            table,
            p,
            full,
            row: full,
        };
        Ok((Stage::Filling(next), None))
    }

    /// Opens the table.
    pub(crate) fn open<P: Part>(self, areas: &mut Areas<P>) -> Result<(Stage, Option<Tally>), Fault>
        ensures { step P.MOST result (memory P.set areas.new) ≡ opening_table (drafted self).table (memory P.set areas.old) }
    {
        let Draft {
            table,
            p: _,
            full: _,
            row: _,
        } = self;
        let opened = open(
            table,
            &areas.universe,
            &areas.table,
            &areas.rows,
            &mut areas.off,
            &mut areas.solution,
            &mut areas.cards,
            &mut areas.work,
            &mut areas.numbers,
        );
        let opened = opened.map_err(refused)?;
        let tally = Tally {
            on: opened.cubes(),
            off: opened.off_cubes(),
        };
        Ok((Stage::Opened(opened), Some(tally)))
    }
}
