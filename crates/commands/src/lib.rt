//! The commands of a sheet. A sheet is a row of commands, each a letter with operands of fixed width; `read` takes off the first.
#![tactic(auto)]

ghost use Rattle.std.specs.Prelude.{◌≡◌, ◌<◌, ◌++◌, length, drop};
ghost use Rattle.commands.specs.Commands.{letter, written, width, reading, found, AtCommand, ReadBack};

use faults::Cause;

/// A command with its operands.
#[derive(Clone, Copy)]
pub enum Command {
    /// K: the kind of the parts.
    Kind(u8),
    /// P: one more part, with so many values.
    Size(u8),
    /// V: the values of a part of the row in hand, a bit for each.
    Value { part: u8, word: u64 },
    /// F: the row in hand is an ON row.
    On,
    /// D: the row in hand is a DC row.
    Dc,
    /// O: the table is opened.
    Open,
}

impl Command {
    /// The letter. It is a method and no `From`, since a command is more than its letter.
    pub fn byte(self) -> u8
        ensures { result ≡ letter self }
    {
        match self {
            Command::Kind(_) => b'K',
            Command::Size(_) => b'P',
            Command::Value { .. } => b'V',
            Command::On => b'F',
            Command::Dc => b'D',
            Command::Open => b'O',
        }
    }
}

/// The command that `bytes` begin with, and the bytes after it; `None` where there are no bytes.
/// Refused are a byte that is no letter (`Unknown`) and a command whose operands are not all there (`Cut`).
/// The bytes after a command are fewer, so a loop over a sheet ends.
pub fn read(bytes: &[u8]) -> Result<Option<(Command, &[u8])>, Cause>
    ensures command { found result ≡ reading bytes.now }
    ensures rest { AtCommand result (λ c rest. rest ≡ drop (width c) bytes.now) }
    ensures shorter { AtCommand result (λ _ rest. length rest < length bytes.now) }
    ensures whole { AtCommand result (λ c rest. bytes.now ≡ written c ++ rest) }
{
    match bytes {
        [] => Ok(None),
        [b'K', kind, rest @ ..] => Ok(Some((Command::Kind(*kind), rest))),
        [b'P', size, rest @ ..] => Ok(Some((Command::Size(*size), rest))),
        [b'V', part, a, b, c, d, e, f, g, h, rest @ ..] => {
            let word = u64::from_be_bytes([*a, *b, *c, *d, *e, *f, *g, *h]);
            Ok(Some((Command::Value { part: *part, word }, rest)))
        }
        [b'F', rest @ ..] => Ok(Some((Command::On, rest))),
        [b'D', rest @ ..] => Ok(Some((Command::Dc, rest))),
        [b'O', rest @ ..] => Ok(Some((Command::Open, rest))),
        [command @ (b'K' | b'P' | b'V'), present @ ..] => Err(Cause::Cut {
            command: *command,
            present: present.len(),
        }),
        [command, ..] => Err(Cause::Unknown { command: *command }),
    }
}

/// A theorem on the definitions: a command that is written is read, whatever follows it.
pub fn read_back()
    ensures { ReadBack }
{}
