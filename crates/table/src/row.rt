//! Add: one row more.
ghost use Rattle.std.specs.Prelude.{◌≡◌, ℕ, ◌+◌, ◌*◌, ◌%◌, ◌^◌, ◌<◌, ◌≤◌, ◌==◌, true, map, length, take, drop, set as edited, is_ok, if◌then◌else◌};
ghost use Rattle.std.specs.Int.Count.{count_trailing_zeros};
ghost use Rattle.std.proofs.Math.Seq.{paste};
ghost use Rattle.faults.specs.Codes.{kind_number};
ghost use Rattle.parts.specs.Sets.{some};
ghost use Rattle.cubes.specs.Areas.{put_at};
ghost use Rattle.cubes.specs.Cubes.{same};
ghost use Rattle.table.specs.Cards.{row_card, area_length};
ghost use Rattle.table.specs.Lists.{rows_in};
ghost use Rattle.table.specs.Filling.{empty_verdict, outside_verdict, repeat_verdict, full_verdict, add_verdict, made_row, Lowest};

use crate::begin::check_area;
use crate::card::{Card, Kind};
use crate::rows::Rows;
use cubes::list::Cubes;
use faults::Cause;
use parts::{Part, lies_within, word_of};

/// How many cubes of `p` parts an area has, with so many cards or numbers beside them.
pub fn area_length(p: usize, parts: usize, beside: usize) -> usize
    requires { 1 ≤ p }
    ensures { result ≡ area_length p parts beside }
{
    (parts / p).min(beside)
}

// Whether each part of the row that the words make has a value.
fn check_empty<P: Part>(words: &[u64]) -> Result<(), Cause>
    ensures { result ≡ empty_verdict 0 (made_row P.MOST words.now) }
{
    for (part, word) in words.iter().enumerate() {
        if P::make(*word).is_empty() {
            return Err(Cause::Empty { part });
        }
    }
    Ok(())
}

// The lowest value of a set, which has one.
fn lowest<P: Part>(values: P) -> usize
    ensures value { result ≡ count_trailing_zeros 64 (P.set values) }
    ensures least { some (P.set values) ≡ true → Lowest (P.set values) result }
{
    word_of(values).trailing_zeros() as usize
}

// Whether the row that the words make has no value that the universe lacks.
fn check_outside<P: Part>(words: &[u64], universe: &[P]) -> Result<(), Cause>
    ensures { result ≡ outside_verdict 0 (made_row P.MOST words.now) (map P.set universe.now) }
{
    for (part, (word, whole)) in words.iter().zip(universe).enumerate() {
        let values = P::make(*word).outside(*whole);
        if !values.is_empty() {
            return Err(Cause::Outside {
                part,
                value: lowest(values),
            });
        }
    }
    Ok(())
}

// Whether a part has the values that a word makes.
fn is_made<P: Part>(part: P, word: u64) -> bool
    ensures { result ≡ (P.set part == word % 2 ^ P.MOST) }
{
    let made = P::make(word);
    lies_within(part, made) && lies_within(made, part)
}

// Whether a cube has the parts of the row that the words make.
fn same_as_row<P: Part>(cube: &[P], words: &[u64]) -> bool
    ensures { result ≡ same (map P.set cube.now) (made_row P.MOST words.now) }
{
    cube.len() == words.len()
        && cube
            .iter()
            .zip(words)
            .all(|(part, word)| is_made(*part, *word))
}

// The number that a refusal has for a kind.
fn number_of(kind: Kind) -> usize
    ensures { result ≡ kind_number kind }
{
    kind as usize
}

// Whether no earlier row of this kind has the same parts.
fn check_repeat<P: Part>(kind: Kind, words: &[u64], rows: &Rows<P>) -> Result<(), Cause>
    ensures { result ≡ repeat_verdict kind (made_row P.MOST words.now) 0 (rows_in P.set rows.now) }
{
    for (row, (cube, card)) in rows.cubes.iter().zip(rows.cards).enumerate() {
        if card.is_on() == kind.is_on() && same_as_row(cube, words) {
            let kind = number_of(kind);
            return Err(Cause::Repeat { row, kind });
        }
    }
    Ok(())
}

// Whether there is room for one row more.
fn check_full(rows: usize, has: usize) -> Result<(), Cause>
    ensures { result ≡ full_verdict rows has }
{
    if rows >= 512 || rows >= has {
        return Err(Cause::Full { rows });
    }
    Ok(())
}

// The areas, as `session::add` takes them, first; then all parts of the row for a value, then for one that the universe lacks, then the earlier rows, then the room.
fn check_add<P: Part>(
    p: usize,
    rows: usize,
    kind: Kind,
    words: &[u64],
    universe: &[P],
    table: &[P],
    cards: &[Card],
) -> Result<(), Cause>
    requires some { 1 ≤ p }
    ensures { result ≡ add_verdict p rows kind (made_row P.MOST words.now) (map P.set universe.now) (map P.set table.now) cards.now }
{
    let has = area_length(p, table.len(), cards.len());
    check_area(1, universe.len(), p)?;
    check_area(2, has, rows)?;
    check_empty::<P>(words)?;
    check_outside(words, &universe[..p])?;
    let earlier = Cubes::new(table, p, rows);
    check_repeat(kind, words, &Rows::new(earlier, cards))?;
    check_full(rows, has)
}

// Writes the parts of a row.
fn write_parts<P: Part>(from: usize, words: &[u64], table: &mut [P])
    requires { from + length words.now ≤ length table.old }
    ensures sets { map P.set table.new ≡ paste (map P.set table.old) from (made_row P.MOST words.now) (length words.now) }
    ensures before { take from table.new ≡ take from table.old }
    ensures behind { drop (from + length words.now) table.new ≡ drop (from + length words.now) table.old }
{
    for (k, word) in words.iter().enumerate() {
        table[from + k] = P::make(*word);
    }
}

/// Adds the row that `words` make to the `rows` of a table of `p` parts, or refuses and writes nothing.
pub fn add_row<P: Part>(
    p: usize,
    rows: usize,
    kind: Kind,
    words: &[u64],
    universe: &[P],
    table: &mut [P],
    cards: &mut [Card],
) -> Result<(), Cause>
    requires some { 1 ≤ p }
    requires size { length words.now ≡ p }
    ensures answer { result ≡ add_verdict p rows kind (made_row P.MOST words.now) (map P.set universe.now) (map P.set table.old) cards.old }
    ensures sets { map P.set table.new ≡ (if is_ok result then put_at p rows (made_row P.MOST words.now) (map P.set table.old) else map P.set table.old) }
    ensures before { take (rows * p) table.new ≡ take (rows * p) table.old }
    ensures behind { drop (if is_ok result then rows * p + p else 0) table.new ≡ drop (if is_ok result then rows * p + p else 0) table.old }
    ensures cards { cards.new ≡ (if is_ok result then edited cards.old rows (row_card kind rows) else cards.old) }
{
    check_add(p, rows, kind, words, universe, table, cards)?;
    write_parts(rows * p, words, table);
    cards[rows] = Card::of_row(kind, rows);
    Ok(())
}
