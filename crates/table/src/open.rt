//! Open: the areas that it needs, and the solution that it starts with.
ghost use Rattle.std.specs.Prelude.{◌≡◌, ℕ, ◌*◌, ◌≤◌, length, replicate};
ghost use Rattle.cubes.specs.Areas.{overlay, flat};
ghost use Rattle.table.specs.Cards.{blank, on_cubes, on_count};
ghost use Rattle.table.specs.Opening.{open_verdict};

use crate::areas::Lengths;
use crate::begin::check_area;
use crate::card::Card;
use crate::rows::Rows;
use cubes::area::copy_cube;
use faults::Cause;
use parts::Part;

/// How many of the cards are those of ON rows.
pub fn count_on(cards: &[Card]) -> usize
    ensures { result ≡ on_count (length cards.now) cards.now }
{
    cards.iter().filter(|card| card.is_on()).count()
}

/// Copies the ON rows, in order, to the start of the solution, each with a blank card. The answer is how many they are.
pub fn copy_on_rows<P: Part>(rows: &Rows<P>, solution: &mut [P], notes: &mut [Card]) -> usize
    requires room { on_count rows.now.cubes.n rows.now.cards.now * rows.now.cubes.p ≤ length solution.old }
    requires noted { on_count rows.now.cubes.n rows.now.cards.now ≤ length notes.old }
    ensures count { result ≡ on_count rows.now.cubes.n rows.now.cards.now }
    ensures cubes { solution.new ≡ overlay (flat (on_cubes rows.now.cubes.p rows.now.cubes.n rows.now.cubes.parts.now rows.now.cards.now)) solution.old }
    ensures cards { notes.new ≡ overlay (replicate (on_count rows.now.cubes.n rows.now.cards.now) blank) notes.old }
{
    let p = rows.cubes.width();
    let mut on = 0;
    // on is counted by hand: over zip, filter and enumerate the check found no type for the loop's iterator, and no proof closed.
    for (cube, card) in rows.cubes.iter().zip(rows.cards) {
        if card.is_on() {
            copy_cube(solution, on, p, cube);
            notes[on] = Card::blank();
            on += 1;
        }
    }
    on
}

/// Whether the areas that Open uses are long enough, the lowest first.
pub fn check_open(p: usize, rows: usize, cards: &[Card], has: Lengths) -> Result<(), Cause>
    requires few { p ≤ 16 }
    requires most { rows ≤ 512 }
    requires some { 1 ≤ p }
    requires beside { has.table ≤ length cards.now }
    ensures { result ≡ open_verdict p rows (on_count rows cards.now) has.universe has.table has.solution has.work }
{
    check_area(1, has.universe, p)?;
    check_area(2, has.table, rows)?;
    check_area(4, has.solution, count_on(&cards[..rows]))?;
    check_area(5, has.work, 1 + (p - 1) * rows)
}
