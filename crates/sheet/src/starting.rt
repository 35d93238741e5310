//! State 0: nothing is said yet.
ghost use Rattle.std.specs.Prelude.{◌≡◌};
ghost use Rattle.sheet.specs.Bench.{at_start, kind_chosen};
ghost use Rattle.sheet.specs.Views.{chosen};

use crate::refusing::misplaced;
use commands::Command;
use faults::{Cause, Fault, Layer, State};

/// The kinds of part.
#[derive(Clone, Copy)]
pub(crate) enum Kind {
    Word,
    Ternary,
}

impl TryFrom<u8> for Kind {
    type Error = Fault;

    ghost try_from_gives = { λ value kind. chosen kind ≡ kind_chosen value };

    fn try_from(value: u8) -> Result<Kind, Fault> {
        match value {
            0 => Ok(Kind::Word),
            1 => Ok(Kind::Ternary),
            _ => Err(Cause::Operand { value }.by(Layer::Sheet)),
        }
    }
}

/// A command in state 0.
pub(crate) fn choose(command: Command) -> Result<Kind, Fault>
    ensures { chosen result ≡ at_start command }
{
    match command {
        Command::Kind(value) => Kind::try_from(value),
        Command::Size(_) | Command::Value { .. } | Command::On | Command::Dc | Command::Open => Err(
            misplaced(command, State::Start),
        ),
    }
}
