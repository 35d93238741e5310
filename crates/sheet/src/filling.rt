//! States 2 and 3: commands on a table that is being filled, or open.
ghost use Rattle.std.specs.Prelude.{◌≡◌, ◌++◌, string_bytes};
ghost use Rattle.sheet.specs.Bench.{begins, at_filling};
ghost use Rattle.sheet.specs.Lines.{obeyed, after_step, lines_from};
ghost use Rattle.sheet.specs.Views.{Ends, memory, drafted, state, step};

use crate::areas::fresh_areas;
use crate::progress::Progress;
use crate::refusing::misplaced;
use crate::stage::Stage;
use crate::stop::Stop;
use crate::types::{Areas, Draft, Sizes, Tally};
use commands::Command;
use faults::{Cause, Fault, Kind, Layer, State};
use parts::Part;

impl Draft {
    /// Ends the table.
    pub(crate) fn close(self) {
        let Draft {
            table,
            p: _,
            full: _,
            row: _,
        } = self;
        let _ = table.close();
    }

    /// A command on a table that is being filled.
    pub(crate) fn obey<P: Part>(
        mut self,
        command: Command,
        areas: &mut Areas<P>,
    ) -> Result<(Stage, Option<Tally>), Fault>
        ensures { step P.MOST result (memory P.set areas.new) ≡ at_filling P.MOST (drafted self) (memory P.set areas.old) command }
    {
        match command {
            Command::Kind(_) | Command::Size(_) => {
                self.close();
                Err(misplaced(command, State::Filling))
            }
            Command::Value { part, word } => {
                let k = part as usize;
                if k >= self.p {
                    self.close();
                    return Err(Cause::Operand { value: part }.by(Layer::Sheet));
                }
                self.row[k] = word;
                Ok((Stage::Filling(self), None))
            }
            Command::On => self.add(Kind::On, areas),
            Command::Dc => self.add(Kind::Dc, areas),
            Command::Open => self.open(areas),
        }
    }
}

// Obeys a command, and those after it.
fn run<P: Part>(
    mut stage: Stage,
    mut command: Command,
    areas: &mut Areas<P>,
    progress: &mut Progress<'_>,
) -> Result<(), Stop>
    ensures { Ends result progress.new (string_bytes progress.old.lines ++ after_step (λ t. lines_from progress.old.end t progress.old.rest.now) progress.old.at (obeyed (state P.MOST stage (memory P.set areas.old)) command)) }
{
    // No `while let`: a command is obeyed before there is a next one.
    loop {
        let (next, tally) = stage.obey(command, areas)?;
        stage = next;
        if let Some(tally) = tally {
            write!(progress.lines, "{tally}")?;
        }
        match progress.next()? {
            Some(next) => command = next,
            None => return Ok(()),
        }
    }
}

/// Begins the table, and obeys the command in hand and those after it.
pub(crate) fn fill_table<P: Part>(
    sizes: &Sizes,
    command: Command,
    progress: &mut Progress<'_>,
) -> Result<(), Stop>
    ensures { Ends result progress.new (string_bytes progress.old.lines ++ after_step (λ t. lines_from progress.old.end t progress.old.rest.now) progress.old.at (begins P.MOST sizes.now.all sizes.now.p command)) }
{
    let heap = *progress.lines.allocator();
    let mut areas = fresh_areas::<P>(heap, sizes.p)?;
    let draft = Draft::begin(sizes, &mut areas)?;
    run(Stage::Filling(draft), command, &mut areas, progress)
}
