//! Runs a case, command by command.
use crate::areas::{Areas, Side};
use crate::calls::{Answer, Calls, Refusal};
use crate::commands::Command;
use crate::items::Items;
use crate::shown::Shown;
use parts::Part;
use std::alloc::AllocError;
use std::fmt::Write;

// A case that runs.
#[derive(Drop)]
struct Run<'a, P> {
    rt: &'a HostRuntime,
    // The number of the case.
    number: u64,
    // Whether sides are printed by their sums.
    by_sum: bool,
    calls: Calls<P>,
    // The sides as they were when the last line was printed.
    seen: [(Side, Vec<u64>); 8],
    // The next line, so far.
    line: String,
}

impl<P: Part> Run<'_, P> {
    // Writes what a call answers.
    fn say(&mut self, said: Result<Answer, Refusal>) -> Result<(), AllocError> {
        match said {
            Ok(answer) => write!(self.line, " {answer}"),
            Err(refusal) => write!(self.line, " {refusal}"),
        }
    }

    // Prints the line with the sides that have changed, and begins the next.
    fn show(&mut self) -> anyhow::Result<()> {
        let now = self.calls.areas.to_numbers(self.rt.alloc())?;
        for ((side, new), (_, old)) in now.iter().zip(&self.seen) {
            if old != new {
                let shown = Shown {
                    side: *side,
                    numbers: new,
                    by_sum: self.by_sum,
                };
                write!(self.line, " | {shown}")?;
            }
        }
        println!(self.rt; "{}:{}", self.number, self.line)?;
        self.line.clear();
        self.seen = now;
        Ok(())
    }

    // Obeys a command.
    fn obey(&mut self, command: Command) -> anyhow::Result<()> {
        let areas = &mut self.calls.areas;
        match command {
            Command::Call(call) => {
                let said = self.calls.make(call);
                self.say(said)?;
            }
            Command::Lend { side, n } => areas.lend(side, n),
            Command::Universe { place, word } => {
                areas.universe.change(place, |part| *part = P::make(word));
            }
            Command::Table { place, word } => {
                areas.table.change(place, |part| *part = P::make(word));
            }
            Command::Kind { place, kind } => areas.rows.change(place, |card| card.kind = kind),
            Command::Show => self.show()?,
            Command::Unknown => {}
        }
        Ok(())
    }
}

/// Runs the case that the items say from the lengths on.
pub(crate) fn run_case<P: Part>(
    rt: &HostRuntime,
    number: u64,
    by_sum: bool,
    mut items: Items,
) -> anyhow::Result<()> {
    let heap = rt.alloc();
    let lengths = items.numbers().map(|length| length as usize);
    let areas: Areas<P> = Areas::new(heap, lengths)?;
    let mut run = Run {
        rt,
        number,
        by_sum,
        seen: areas.to_numbers(heap)?,
        calls: Calls::new(areas),
        line: String::new(heap),
    };
    for command in items {
        run.obey(command)?;
    }
    Ok(())
}
