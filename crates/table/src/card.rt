//! Cards: what lies beside each cube of table and solution.
ghost use Rattle.std.specs.Prelude.{◌≡◌};
ghost use Rattle.table.specs.Cards.{blank, is_on, row_card};

pub use faults::Kind;

/// The card of a cube. Add writes the kind and the starting place of a row; the engine keeps its weights and marks here.
#[derive(Clone, Copy)]
pub struct Card {
    /// 0 is an ON row; any other number is a DC row. It is no `Kind`, since a card lies in lent memory, where any number may stand.
    pub kind: u8,
    /// How many values the cube shares with each cube of the solution.
    pub weight: usize,
    /// The place at which the cube started.
    pub place: usize,
    /// The cube was taken by the call that runs.
    pub taken: bool,
    /// The cube was tried beside the one that is taken.
    pub tried: bool,
    /// The cube is out of the list while it is measured.
    pub out: bool,
}

impl Card {
    /// All zeros.
    pub fn blank() -> Card
        ensures { result ≡ blank }
    {
        Card {
            kind: 0,
            weight: 0,
            place: 0,
            taken: false,
            tried: false,
            out: false,
        }
    }

    /// The card of a row that is added at a place.
    pub fn of_row(kind: Kind, place: usize) -> Card
        ensures { result ≡ row_card kind place }
    {
        Card {
            kind: kind as u8,
            place,
            ..Card::blank()
        }
    }

    /// Whether it is the card of an ON row.
    pub fn is_on(&self) -> bool
        ensures { result ≡ is_on self.now }
    {
        self.kind == 0
    }
}
