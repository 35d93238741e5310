//! The commands of a case.
ghost use Rattle.std.specs.Prelude.{length};
ghost use Rattle.std.specs.Iterator.{at_most};

use crate::areas::Side;
use crate::calls::Call;
use crate::items::Items;
use table::card::Kind;

/// A command.
pub(crate) enum Command {
    Call(Call),
    /// Only the first `n` items of a side are lent.
    Lend { side: Side, n: usize },
    /// A part of the universe.
    Universe { place: usize, word: u64 },
    /// A part of the table.
    Table { place: usize, word: u64 },
    /// The kind of a row's card: a number, since a case may write any byte there.
    Kind { place: usize, kind: u8 },
    /// Prints a line.
    Show,
    /// A letter that is no command: nothing happens.
    Unknown,
}

// An item as a letter or a kind.
fn byte_of(item: u64) -> u8 {
    (item & 0xff) as u8
}

impl Iterator for Items<'_> {
    type Item = Command;

    ghost remaining = { λ items. at_most (length items.rest.now) };

    fn next(&mut self) -> Option<Command> {
        let (letter, rest) = self.rest.split_first()?;
        self.rest = rest;
        Some(match byte_of(*letter) {
            b'B' => {
                let [p, n] = self.numbers::<2>();
                Command::Call(Call::Begin {
                    p: p as usize,
                    sizes: self.first(n as usize).map(|size| size as usize),
                })
            }
            b'A' => {
                let [kind, n] = self.numbers::<2>();
                Command::Call(Call::Add {
                    kind: if kind == 0 { Kind::On } else { Kind::Dc },
                    words: self.first(n as usize),
                })
            }
            b'O' => Command::Call(Call::Open),
            b'L' => {
                let [side, n] = self.numbers::<2>();
                Command::Lend {
                    side: Side::from(side),
                    n: n as usize,
                }
            }
            b'U' => {
                let [place, word] = self.numbers::<2>();
                Command::Universe {
                    place: place as usize,
                    word,
                }
            }
            b'T' => {
                let [place, word] = self.numbers::<2>();
                Command::Table {
                    place: place as usize,
                    word,
                }
            }
            b'C' => {
                let [place, kind] = self.numbers::<2>();
                Command::Kind {
                    place: place as usize,
                    kind: byte_of(kind),
                }
            }
            b'S' => Command::Show,
            _ => Command::Unknown,
        })
    }
}
