//! The lent areas: their sides, full of something at the start, and how much of each is lent.
ghost use Rattle.std.specs.Prelude.{◌≤◌, vec_len};

use parts::Part;
use std::alloc::{AllocError, Global};
use std::fmt;
use table::card::Card;

/// The sides of the areas, in their order.
#[derive(Clone, Copy)]
pub(crate) enum Side {
    Universe,
    Table,
    Rows,
    Off,
    Solution,
    Cards,
    Work,
    Numbers,
}

impl From<u64> for Side {
    // The side of a number; each past the last stands for the last.
    fn from(number: u64) -> Side {
        match number {
            0 => Side::Universe,
            1 => Side::Table,
            2 => Side::Rows,
            3 => Side::Off,
            4 => Side::Solution,
            5 => Side::Cards,
            6 => Side::Work,
            _ => Side::Numbers,
        }
    }
}

impl fmt::Display for Side {
    fn fmt<W: fmt::Write>(&self, f: &mut fmt::Formatter<W>) -> fmt::Result {
        f.write_str(match self {
            Side::Universe => "universe",
            Side::Table => "table",
            Side::Rows => "rows",
            Side::Off => "off",
            Side::Solution => "solution",
            Side::Cards => "cards",
            Side::Work => "work",
            Side::Numbers => "numbers",
        })
    }
}

/// A side: its items, of which the first ones are lent.
#[derive(Drop)]
pub(crate) struct Area<T> {
    items: Vec<T>,
    lent: usize,
}

impl<T> Area<T> {
    /// A side of this length, all of it lent, full of what is made for each place.
    fn new<F: FnMut(usize) -> T>(
        heap: Global,
        length: usize,
        make: F,
    ) -> Result<Area<T>, AllocError>
    where
        T: Drop,
        requires { (f : F) (place : _) → F.pre f place }
    {
        Ok(Area {
            items: (0..length).map(make).collect(heap)?,
            lent: length,
        })
    }

    // How many items are lent.
    fn lent_len(&self) -> usize
        ensures { result ≤ vec_len self.now.items }
    {
        self.lent.min(self.items.len())
    }

    /// What is lent.
    pub(crate) fn lent(&self) -> &[T] {
        &self.items[..self.lent_len()]
    }

    /// What is lent, to be written.
    // Beside `lent`: no function is generic in whether it borrows to read or to write.
    pub(crate) fn lent_mut(&mut self) -> &mut [T] {
        let n = self.lent_len();
        &mut self.items[..n]
    }

    /// Changes the item at a place, if there is one.
    pub(crate) fn change<F: FnOnce(&mut T)>(&mut self, place: usize, change: F)
        requires { F.IsAlwaysCallable change }
    {
        if let Some(item) = self.items.get_mut(place) {
            change(item);
        }
    }

    // A number for each item.
    fn to_numbers<F: FnMut(&T) -> u64>(
        &self,
        heap: Global,
        number: F,
    ) -> Result<Vec<u64>, AllocError>
        requires { (f : F) (item : _) → F.pre f item }
    {
        self.items.iter().map(number).collect(heap)
    }
}

// A part for a place of a side: a number from 1 to 250 as a set of values.
fn junk_part<P: Part>(side: Side, place: usize) -> P {
    let place = place as u64;
    P::make(1 + place.wrapping_mul(7).wrapping_add(side as u64 * 3) % 250)
}

// A card for a place.
fn junk_card(place: usize) -> Card {
    Card {
        kind: (place % 3) as u8,
        weight: place.wrapping_add(10),
        place: place.wrapping_add(20),
        taken: place % 2 == 0,
        tried: place % 4 < 2,
        out: place % 8 < 4,
    }
}

// A number for a place.
fn junk_number(place: usize) -> usize {
    place.wrapping_add(30)
}

// The values of a part, a bit for each. The library's `word_of` asks up to the kind's most; here a value past it would show too.
fn word_of<P: Part>(part: P) -> u64 {
    let mut word: u64 = 0;
    for v in 0..64u32 {
        if part.contains(v) {
            word |= 1 << v;
        }
    }
    word
}

// A card as four numbers: kind, weight, place, and the marks as bits.
fn card_to_numbers(card: &Card) -> [u64; 4] {
    [
        u64::from(card.kind),
        card.weight as u64,
        card.place as u64,
        u64::from(card.taken) | u64::from(card.tried) << 1 | u64::from(card.out) << 2,
    ]
}

impl Area<Card> {
    // Four numbers for each card.
    fn cards_to_numbers(&self, heap: Global) -> Result<Vec<u64>, AllocError> {
        self.items.iter().flat_map(card_to_numbers).collect(heap)
    }
}

/// The sides of the areas.
#[derive(Drop)]
pub(crate) struct Areas<P> {
    pub(crate) universe: Area<P>,
    pub(crate) table: Area<P>,
    pub(crate) rows: Area<Card>,
    pub(crate) off: Area<P>,
    pub(crate) solution: Area<P>,
    pub(crate) cards: Area<Card>,
    pub(crate) work: Area<P>,
    pub(crate) numbers: Area<usize>,
}

impl<P: Part> Areas<P> {
    /// Areas with sides of these lengths, all of it lent.
    pub(crate) fn new(heap: Global, lengths: [usize; 8]) -> Result<Areas<P>, AllocError> {
        let [universe, table, rows, off, solution, cards, work, numbers] = lengths;
        Ok(Areas {
            universe: Area::new(heap, universe, |place| junk_part(Side::Universe, place))?,
            table: Area::new(heap, table, |place| junk_part(Side::Table, place))?,
            rows: Area::new(heap, rows, junk_card)?,
            off: Area::new(heap, off, |place| junk_part(Side::Off, place))?,
            solution: Area::new(heap, solution, |place| junk_part(Side::Solution, place))?,
            cards: Area::new(heap, cards, junk_card)?,
            work: Area::new(heap, work, |place| junk_part(Side::Work, place))?,
            numbers: Area::new(heap, numbers, junk_number)?,
        })
    }

    /// From here on only the first `n` items of a side are lent.
    // The sides are of four types, so they are no list to index.
    pub(crate) fn lend(&mut self, side: Side, n: usize) {
        match side {
            Side::Universe => self.universe.lent = n,
            Side::Table => self.table.lent = n,
            Side::Rows => self.rows.lent = n,
            Side::Off => self.off.lent = n,
            Side::Solution => self.solution.lent = n,
            Side::Cards => self.cards.lent = n,
            Side::Work => self.work.lent = n,
            Side::Numbers => self.numbers.lent = n,
        }
    }

    /// Each side as numbers.
    pub(crate) fn to_numbers(&self, heap: Global) -> Result<[(Side, Vec<u64>); 8], AllocError> {
        let values = |part: &P| word_of(*part);
        Ok([
            (Side::Universe, self.universe.to_numbers(heap, values)?),
            (Side::Table, self.table.to_numbers(heap, values)?),
            (Side::Rows, self.rows.cards_to_numbers(heap)?),
            (Side::Off, self.off.to_numbers(heap, values)?),
            (Side::Solution, self.solution.to_numbers(heap, values)?),
            (Side::Cards, self.cards.cards_to_numbers(heap)?),
            (Side::Work, self.work.to_numbers(heap, values)?),
            (
                Side::Numbers,
                self.numbers.to_numbers(heap, |number| *number as u64)?,
            ),
        ])
    }
}
