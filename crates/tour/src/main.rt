//! A tour: fills a designer's table by calls of the library, opens it, and prints the rows and then the off list, cube by cube.
//!
//! The table decides when a ship's name is shown beside its symbol. It has four parts: the range (near, middle, far), the track (steady, turning),
//! the light (day, night), and the label (short, long). ON rows say when the name must be shown, a DC row when it does not matter.
#![tactic(auto)]

use faults::Fault;
use listing::cube_text;
use parts::{Part, Word};
use session::{Open, Table, add, begin, open};
use table::card::{Card, Kind};

const PARTS: usize = 4;

// The size of each part. The library's calls take sixteen numbers, and read the first ones.
const SIZES: [usize; 16] = [3, 2, 2, 2, 0, 0, 0, 0, 0, 0, 0, 0, 0, 0, 0, 0];

// The rows: a kind, and a word for each part.
const ROWS: [(Kind, [u64; 16]); 5] = [
    (Kind::On, [1, 3, 3, 1, 0, 0, 0, 0, 0, 0, 0, 0, 0, 0, 0, 0]),
    (Kind::On, [1, 2, 3, 2, 0, 0, 0, 0, 0, 0, 0, 0, 0, 0, 0, 0]),
    (Kind::On, [2, 2, 1, 3, 0, 0, 0, 0, 0, 0, 0, 0, 0, 0, 0, 0]),
    (Kind::On, [4, 2, 2, 1, 0, 0, 0, 0, 0, 0, 0, 0, 0, 0, 0, 0]),
    (Kind::Dc, [6, 1, 2, 3, 0, 0, 0, 0, 0, 0, 0, 0, 0, 0, 0, 0]),
];

// The memory that the tour lends: an area for each use, with its cards or numbers.
#[derive(Drop)]
struct Areas {
    universe: [Word; PARTS],
    table: [Word; 32],
    rows: [Card; 8],
    off: [Word; 256],
    solution: [Word; 32],
    cards: [Card; 8],
    work: [Word; 256],
    numbers: [usize; 64],
}

impl Areas {
    // Areas with nothing in them.
    fn new() -> Areas {
        let none = Word::make(0);
        Areas {
            universe: [none; PARTS],
            table: [none; 32],
            rows: [Card::blank(); 8],
            off: [none; 256],
            solution: [none; 32],
            cards: [Card::blank(); 8],
            work: [none; 256],
            numbers: [0; 64],
        }
    }

    // Adds the rows, up to the first that is refused.
    fn fill(&mut self, mut t: Table) -> Result<Table, (Table, Fault)> {
        for (kind, words) in &ROWS {
            t = add(
                t,
                *kind,
                words,
                &self.universe,
                &mut self.table,
                &mut self.rows,
            )?;
        }
        Ok(t)
    }

    // Opens the table.
    fn open(&mut self, t: Table) -> Result<Open, (Table, Fault)> {
        open(
            t,
            &self.universe,
            &self.table,
            &self.rows,
            &mut self.off,
            &mut self.solution,
            &mut self.cards,
            &mut self.work,
            &mut self.numbers,
        )
    }

    // Begins the table, fills it and opens it.
    fn run(&mut self) -> Result<Open, Fault> {
        let t = begin(PARTS, &SIZES, &mut self.universe)?;
        let t = self.fill(t).map_err(ended)?;
        self.open(t).map_err(ended)
    }

    // Prints a cube behind a word.
    fn show(&self, rt: &HostRuntime, word: &str, cube: &[Word; PARTS]) -> anyhow::Result<()> {
        let text = cube_text(rt.alloc(), &self.universe, cube)?;
        println!(rt; "{word} {text}")?;
        Ok(())
    }

    // Prints the rows and the off list.
    fn tell(&self, rt: &HostRuntime, s: &Open) -> anyhow::Result<()> {
        println!(rt; "the table, its parts being range, track, light and label:")?;
        let (rows, _) = self.table.as_chunks::<PARTS>();
        for ((kind, _), row) in ROWS.iter().zip(rows) {
            let word = match kind {
                Kind::On => "ON ",
                Kind::Dc => "DC ",
            };
            self.show(rt, word, row)?;
        }
        let on = s.cubes();
        let offs = s.off_cubes();
        println!(rt; "opened: {on} ON rows, {offs} off cubes:")?;
        let (off, _) = self.off.as_chunks::<PARTS>();
        for cube in off.iter().take(offs) {
            self.show(rt, "off", cube)?;
        }
        Ok(())
    }
}

// Ends the table that comes back with a refusal, which is what is left.
fn ended((t, fault): (Table, Fault)) -> Fault {
    t.close();
    fault
}

fn main(rt: HostRuntime) -> anyhow::Result<()> {
    let mut areas = Areas::new();
    match areas.run() {
        Ok(s) => {
            let told = areas.tell(&rt, &s);
            s.close();
            told
        }
        Err(fault) => {
            let line = fault.line(rt.alloc(), 0)?;
            print!(rt; "{line}")?;
            Ok(())
        }
    }
}
