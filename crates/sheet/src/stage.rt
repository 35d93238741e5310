//! States 2 and 3: a table is being filled, or a session is open.
ghost use Rattle.std.specs.Prelude.{◌≡◌, Some};
ghost use Rattle.sheet.specs.Bench.{open_line};
ghost use Rattle.sheet.specs.Lines.{obeyed};
ghost use Rattle.sheet.specs.Views.{memory, state, step};

use crate::refusing::misplaced;
use crate::types::{Areas, Draft, Tally};
use commands::Command;
use faults::{Fault, State};
use parts::Part;
use session::Open;
use std::fmt;

/// A table that is being filled, or an open session. A stage that is let go ends what it holds.
pub(crate) enum Stage {
    Filling(Draft),
    Opened(Open),
}

impl Drop for Stage {
    fn drop(self) {
        match self {
            Stage::Filling(draft) => draft.close(),
            Stage::Opened(open) => {
                let _ = open.close();
            }
        }
    }
}

impl Stage {
    /// A command in state 2 or 3.
    pub(crate) fn obey<P: Part>(
        self,
        command: Command,
        areas: &mut Areas<P>,
    ) -> Result<(Stage, Option<Tally>), Fault>
        ensures { step P.MOST result (memory P.set areas.new) ≡ obeyed (state P.MOST self (memory P.set areas.old)) command }
    {
        match self {
            Stage::Filling(draft) => draft.obey(command, areas),
            Stage::Opened(open) => {
                let _ = open.close();
                Err(misplaced(command, State::Opened))
            }
        }
    }
}

impl fmt::Display for Tally {
    ghost output = { λ tally. Some (open_line tally.on tally.off) };

    fn fmt<W: fmt::Write>(&self, f: &mut fmt::Formatter<W>) -> fmt::Result {
        let Tally { on, off } = *self;
        write!(f, "O {on} {off}\n")
    }
}
