//! Refusals: what a call says when it does nothing. Each has a number, the layer that refuses, and two places that say what is wrong and where.
#![tactic(auto)]

ghost use Rattle.std.specs.Prelude.{◌≡◌, IfOk, Some, string_bytes};
ghost use Rattle.faults.specs.Codes.{number as number_of, name as name_of, first_place, second_place, layer_word, is_on_kind, refusal_line};

use std::alloc::{AllocError, Global};
use std::fmt;

/// Who refuses: the sheet of commands, the table while it is filled, or the engine from Open onward.
#[derive(Clone, Copy)]
pub enum Layer {
    Sheet,
    Table,
    Engine,
}

/// Whether a row says what must be held (ON) or what may be (DC, don't care).
#[derive(Clone, Copy)]
pub enum Kind {
    On,
    Dc,
}

/// The states of a sheet: nothing is said yet, parts are declared, a table is filled, a session is open.
#[derive(Clone, Copy)]
pub enum State {
    Start,
    Sizing,
    Filling,
    Opened,
}

/// What is refused, with its places, in the order in which they are checked.
#[derive(Clone, Copy)]
pub enum Cause {
    /// The sheet has over 4,096 bytes.
    Long,
    /// There is no such command.
    Unknown { command: u8 },
    /// The sheet ends within the operands; so many of their bytes are there.
    Cut { command: u8, present: usize },
    /// The command is not allowed in this state, which is a number (`State` has those of a sheet).
    // A number, as an area is: a `State` would ask more of whoever shows a cause.
    Misplaced { command: u8, state: u8 },
    /// A kind, an order byte or a part number has no meaning.
    Operand { value: u8 },
    /// The number of parts is not 1 to 16 (it, 0), or a size is not 1 to the kind's most (part, size).
    Shape { first: usize, second: usize },
    /// A limit of rounds is not 1 to 512.
    Limit { rounds: usize },
    /// An area is too short; so much is needed.
    // The area's number stays a number: whoever checks an area names it by any number, and an enum would ask more of them.
    Area { area: usize, needed: usize },
    /// A part of a row has no value.
    Empty { part: usize },
    /// A part of a row has a value that the universe lacks.
    Outside { part: usize, value: usize },
    /// An earlier row of this kind (0 for ON, 1 for DC) has the same parts.
    // A number, as a state is.
    Repeat { row: usize, kind: usize },
    /// There are 512 rows, or the table area is filled.
    Full { rows: usize },
    /// The off list has more cubes than this: 4,096, or its area where that is shorter.
    Off { most: usize },
    /// A cube of the solution meets an off cube.
    Foreign { cube: usize, off: usize },
}

/// A refusal.
#[derive(Clone, Copy)]
pub struct Fault {
    pub layer: Layer,
    pub cause: Cause,
}

impl Kind {
    /// Whether it is ON.
    pub fn is_on(self) -> bool
        ensures { result ≡ is_on_kind self }
    {
        matches!(self, Kind::On)
    }
}

impl Layer {
    /// The word for the layer.
    pub fn word(&self) -> &'static str
        ensures { result.now ≡ layer_word self.now }
    {
        match self {
            Layer::Sheet => "sheet",
            Layer::Table => "table",
            Layer::Engine => "engine",
        }
    }
}

// A table of numbers and one of names: the cases hold places, so no cast gives the number, and what differs is the answer of each case.
impl Cause {
    /// The number, 1 to 14.
    pub fn number(&self) -> u8
        ensures { result ≡ number_of self.now }
    {
        match self {
            Cause::Long => 1,
            Cause::Unknown { .. } => 2,
            Cause::Cut { .. } => 3,
            Cause::Misplaced { .. } => 4,
            Cause::Operand { .. } => 5,
            Cause::Shape { .. } => 6,
            Cause::Limit { .. } => 7,
            Cause::Area { .. } => 8,
            Cause::Empty { .. } => 9,
            Cause::Outside { .. } => 10,
            Cause::Repeat { .. } => 11,
            Cause::Full { .. } => 12,
            Cause::Off { .. } => 13,
            Cause::Foreign { .. } => 14,
        }
    }

    /// The name that is printed.
    pub fn name(&self) -> &'static str
        ensures { result.now ≡ name_of self.now }
    {
        match self {
            Cause::Long => "long",
            Cause::Unknown { .. } => "unknown",
            Cause::Cut { .. } => "cut",
            Cause::Misplaced { .. } => "misplaced",
            Cause::Operand { .. } => "operand",
            Cause::Shape { .. } => "shape",
            Cause::Limit { .. } => "limit",
            Cause::Area { .. } => "area",
            Cause::Empty { .. } => "empty",
            Cause::Outside { .. } => "outside",
            Cause::Repeat { .. } => "repeat",
            Cause::Full { .. } => "full",
            Cause::Off { .. } => "off",
            Cause::Foreign { .. } => "foreign",
        }
    }

    /// The two places.
    pub fn places(&self) -> (usize, usize)
        ensures { result ≡ (first_place self.now, second_place self.now) }
    {
        match *self {
            Cause::Long => (0, 0),
            Cause::Unknown { command } => (command as usize, 0),
            Cause::Cut { command, present } => (command as usize, present),
            Cause::Misplaced { command, state } => (command as usize, state as usize),
            Cause::Operand { value } => (value as usize, 0),
            Cause::Shape { first, second } => (first, second),
            Cause::Limit { rounds } => (rounds, 0),
            Cause::Area { area, needed } => (area, needed),
            Cause::Empty { part } => (part, 0),
            Cause::Outside { part, value } => (part, value),
            Cause::Repeat { row, kind } => (row, kind),
            Cause::Full { rows } => (rows, 0),
            Cause::Off { most } => (most, 0),
            Cause::Foreign { cube, off } => (cube, off),
        }
    }
}

impl fmt::Display for Layer {
    ghost output = { λ layer. Some (layer_word layer) };

    fn fmt<W: fmt::Write>(&self, f: &mut fmt::Formatter<W>) -> fmt::Result {
        f.write_str(self.word())
    }
}

impl fmt::Display for Cause {
    ghost output = { λ cause. Some (name_of cause) };

    fn fmt<W: fmt::Write>(&self, f: &mut fmt::Formatter<W>) -> fmt::Result {
        f.write_str(self.name())
    }
}

impl Cause {
    /// The refusal by a layer.
    pub fn by(self, layer: Layer) -> Fault
        ensures { result ≡ record { layer = layer; cause = self } }
    {
        Fault { layer, cause: self }
    }
}

impl Fault {
    /// The line that is printed of a refusal, newline included; `at` is where it came.
    pub fn line(&self, heap: Global, at: usize) -> Result<String, AllocError>
        ensures { IfOk result (λ s. string_bytes s ≡ refusal_line self.now at) }
    {
        let Fault { layer, cause } = *self;
        let number = cause.number();
        let (first, second) = cause.places();
        format!(in heap; "refused {number} {cause} {layer} at {at} {first} {second}\n")
    }
}
