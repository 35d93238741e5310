//! State 1: the kind is known, and parts are declared.
ghost use Rattle.std.specs.Prelude.{◌≡◌, ◌++◌, replicate, string_bytes};
ghost use Rattle.sheet.specs.Bench.{sizing, part_declared, at_sizing};
ghost use Rattle.sheet.specs.Lines.{lines_from};
ghost use Rattle.sheet.specs.Views.{Ends, declared, sized};

use crate::filling::fill_table;
use crate::progress::Progress;
use crate::refusing::misplaced;
use crate::stop::Stop;
use crate::types::Sizes;
use commands::Command;
use faults::{Cause, Fault, Layer, State};
use parts::Part;

impl Sizes {
    // No part.
    fn new() -> Sizes
        ensures all { result.all ≡ replicate 16 0 }
        ensures p { result.p ≡ 0 }
    {
        Sizes { all: [0; 16], p: 0 }
    }

    // Declares one part more. A seventeenth is refused before its size is looked at.
    fn declare<P: Part>(&mut self, size: u8) -> Result<(), Fault>
        ensures { declared P.MOST result self.new ≡ part_declared P.MOST self.old.all self.old.p size }
    {
        let size = size as usize;
        if self.p >= 16 {
            let cause = Cause::Shape {
                first: self.p + 1,
                second: 0,
            };
            return Err(cause.by(Layer::Table));
        }
        if size < 1 || size > P::MOST as usize {
            let cause = Cause::Shape {
                first: self.p,
                second: size,
            };
            return Err(cause.by(Layer::Table));
        }
        self.all[self.p] = size;
        self.p += 1;
        Ok(())
    }

    // Obeys a command, or hands it back where it begins the table.
    fn obey<P: Part>(&mut self, command: Command) -> Result<Option<Command>, Fault>
        ensures { sized P.MOST result self.new ≡ at_sizing P.MOST self.old.all self.old.p command }
    {
        match command {
            Command::Kind(_) => Err(misplaced(command, State::Sizing)),
            Command::Size(size) => {
                self.declare::<P>(size)?;
                Ok(None)
            }
            Command::Value { part, .. } if part as usize >= self.p => Err(Cause::Operand {
                value: part,
            }.by(Layer::Sheet)),
            Command::Value { .. } | Command::On | Command::Dc | Command::Open => Ok(Some(command)),
        }
    }
}

/// Obeys the commands after the kind.
pub(crate) fn size_parts<P: Part>(progress: &mut Progress<'_>) -> Result<(), Stop>
    ensures { Ends result progress.new (string_bytes progress.old.lines ++ lines_from progress.old.end (sizing P.MOST (replicate 16 0) 0) progress.old.rest.now) }
{
    let mut sizes = Sizes::new();
    while let Some(command) = progress.next()? {
        if let Some(command) = sizes.obey::<P>(command)? {
            return fill_table::<P>(&sizes, command, progress);
        }
    }
    Ok(())
}
