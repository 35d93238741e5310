//! Refusals.
ghost use Rattle.std.specs.Prelude.{◌≡◌};
ghost use Rattle.faults.specs.Codes.{state_number};
ghost use Rattle.commands.specs.Commands.{letter};
ghost use Rattle.sheet.specs.Bench.{by_sheet};

use commands::Command;
use faults::{Cause, Fault, Layer, State};
use session::Table;

/// The refusal of a command in a state where it is not allowed.
pub(crate) fn misplaced(command: Command, state: State) -> Fault
    ensures { result ≡ by_sheet (Cause.Misplaced (letter command) (state_number state)) }
{
    Cause::Misplaced {
        command: command.byte(),
        state: state as u8,
    }
    .by(Layer::Sheet)
}

/// The refusal of a call that hands its table back. The table ends.
pub(crate) fn refused(e: (Table, Fault)) -> Fault
    ensures { result ≡ e.1 }
{
    let (table, fault) = e;
    let _ = table.close();
    fault
}
