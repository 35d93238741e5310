//! Makes calls of the library on lent areas of any length, as standard input says, and prints what they answer and leave behind.
//!
//! A case is a line of numbers and letters. First the kind of part (0 word, 1 ternary), whether sides are printed by their sums (1) or in full
//! (0), and the lengths of the eight sides: universe, table, its cards, off, solution, its cards, work, its numbers. Then:
//!
//! - `B p n size..`, `A kind n word..`, `O`: Begin, Add (kind 0 is ON, 1 DC) and Open. Of sizes and words the first n are written, and the
//!   others of the sixteen are 0.
//! - `L side n`: from here on only the first n items of the side are lent. Sides count from 0.
//! - `U place word`, `T place word`, `C place kind`: writes a part of the universe or the table, or the kind of a row's card.
//! - `S`: prints a line: the number of the case, what was answered since the last `S`, and the sides that have changed since.
//!
//! A refusal is printed with its number, layer and places, and then the rows of the table that is handed back. A side is printed as hexadecimal
//! numbers: a part by its values, a bit for each; a card by its kind, weight, place and marks (taken 1, tried 2, out 4).
//! At the start every side is full of something, so that it is seen what stays.
#![tactic(auto)]

mod areas;
mod calls;
mod commands;
mod items;
mod run;
mod shown;

use items::{Items, items_of};
use parts::{Ternary, Word};
use run::run_case;
use std::io::{BufRead, BufReader};

// Runs the case of a line.
fn run_line(rt: &HostRuntime, number: u64, line: &str) -> anyhow::Result<()> {
    let all = items_of(rt.alloc(), line.as_bytes())?;
    let mut items = Items { rest: &all };
    let [kind, sums] = items.numbers::<2>();
    match kind {
        0 => run_case::<Word>(rt, number, sums == 1, items),
        _ => run_case::<Ternary>(rt, number, sums == 1, items),
    }
}

fn main(rt: HostRuntime) -> anyhow::Result<()> {
    let lines = BufReader::new(rt.alloc(), rt.stdin())?.lines(rt.alloc());
    for (number, line) in (1..).zip(lines) {
        run_line(&rt, number, line?.as_str())?;
    }
    Ok(())
}
