//! The calls, on what is lent of the areas.
use crate::areas::Areas;
use faults::Fault;
use parts::Part;
use session::{Open, Table, add, begin, open};
use std::fmt;
use table::card::Kind;

/// A call of the library.
pub(crate) enum Call {
    Begin { p: usize, sizes: [usize; 16] },
    Add { kind: Kind, words: [u64; 16] },
    Open,
}

/// What a call answers.
#[derive(Clone, Copy)]
pub(crate) enum Answer {
    Begun { rows: usize },
    Added { rows: usize },
    Opened { cubes: usize, off: usize },
}

/// Why a call does nothing.
#[derive(Clone, Copy)]
pub(crate) enum Refusal {
    /// No table is being filled.
    NoTable,
    /// The library refuses; the table that it hands back has so many rows.
    Refused { fault: Fault, rows: usize },
}

impl fmt::Display for Answer {
    fn fmt<W: fmt::Write>(&self, f: &mut fmt::Formatter<W>) -> fmt::Result {
        match self {
            Answer::Begun { rows } => write!(f, "begun {rows}"),
            Answer::Added { rows } => write!(f, "added {rows}"),
            Answer::Opened { cubes, off } => write!(f, "opened {cubes} {off}"),
        }
    }
}

impl fmt::Display for Refusal {
    fn fmt<W: fmt::Write>(&self, f: &mut fmt::Formatter<W>) -> fmt::Result {
        match self {
            Refusal::NoTable => write!(f, "no table"),
            Refusal::Refused { fault, rows } => {
                let Fault { layer, cause } = *fault;
                let number = cause.number();
                let (first, second) = cause.places();
                write!(f, "refused {number} {layer} {first} {second} with {rows}")
            }
        }
    }
}

// What stands between two calls. Unlike a table or a session it may be let go: it is closed then.
enum Stage {
    Filling(Table),
    Opened(Open),
}

impl Drop for Stage {
    fn drop(self) {
        match self {
            Stage::Filling(t) => {
                t.close();
            }
            Stage::Opened(s) => {
                s.close();
            }
        }
    }
}

impl Stage {
    // The table that is being filled; a session ends.
    fn into_table(self) -> Result<Table, Refusal> {
        match self {
            Stage::Filling(t) => Ok(t),
            Stage::Opened(s) => {
                s.close();
                Err(Refusal::NoTable)
            }
        }
    }
}

/// The areas, and what stands between two calls on them.
#[derive(Drop)]
pub(crate) struct Calls<P> {
    pub(crate) areas: Areas<P>,
    stage: Option<Stage>,
}

impl<P: Part> Calls<P> {
    /// No call is made yet.
    pub(crate) fn new(areas: Areas<P>) -> Calls<P> {
        Calls { areas, stage: None }
    }

    // The table that is being filled, taken out.
    fn table(&mut self) -> Result<Table, Refusal> {
        self.stage.take().ok_or(Refusal::NoTable)?.into_table()
    }

    // Puts a table in, and says how many rows it has.
    fn keep(&mut self, t: Table) -> usize {
        let rows = t.rows();
        self.stage = Some(Stage::Filling(t));
        rows
    }

    // The refusal that comes with a table, which is put in again.
    fn refuse(&mut self, (t, fault): (Table, Fault)) -> Refusal {
        Refusal::Refused {
            fault,
            rows: self.keep(t),
        }
    }

    // Begin.
    fn begin(&mut self, p: usize, sizes: &[usize; 16]) -> Result<Answer, Refusal> {
        self.stage = None;
        match begin(p, sizes, self.areas.universe.lent_mut()) {
            Ok(t) => Ok(Answer::Begun { rows: self.keep(t) }),
            Err(fault) => Err(Refusal::Refused { fault, rows: 0 }),
        }
    }

    // Add.
    fn add(&mut self, kind: Kind, words: &[u64; 16]) -> Result<Answer, Refusal> {
        let t = self.table()?;
        let areas = &mut self.areas;
        match add(
            t,
            kind,
            words,
            areas.universe.lent(),
            areas.table.lent_mut(),
            areas.rows.lent_mut(),
        ) {
            Ok(t) => Ok(Answer::Added { rows: self.keep(t) }),
            Err(back) => Err(self.refuse(back)),
        }
    }

    // Open.
    fn open(&mut self) -> Result<Answer, Refusal> {
        let t = self.table()?;
        let areas = &mut self.areas;
        match open(
            t,
            areas.universe.lent(),
            areas.table.lent(),
            areas.rows.lent(),
            areas.off.lent_mut(),
            areas.solution.lent_mut(),
            areas.cards.lent_mut(),
            areas.work.lent_mut(),
            areas.numbers.lent_mut(),
        ) {
            Ok(s) => {
                let cubes = s.cubes();
                let off = s.off_cubes();
                self.stage = Some(Stage::Opened(s));
                Ok(Answer::Opened { cubes, off })
            }
            Err(back) => Err(self.refuse(back)),
        }
    }

    /// Makes a call.
    pub(crate) fn make(&mut self, call: Call) -> Result<Answer, Refusal> {
        match call {
            Call::Begin { p, sizes } => self.begin(p, &sizes),
            Call::Add { kind, words } => self.add(kind, &words),
            Call::Open => self.open(),
        }
    }
}
