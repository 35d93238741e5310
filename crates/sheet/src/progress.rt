//! How far a sheet is obeyed.
ghost use Rattle.std.specs.Prelude.{◌≡◌, ◌-◌, ◌<◌, ◌≤◌, [], length, drop, IfOk, IfSome, string_bytes};
ghost use Rattle.std.specs.Result.{result_map_both};
ghost use Rattle.commands.specs.Commands.{reading, width};
ghost use Rattle.sheet.specs.Bench.{by_sheet};

use commands::{Command, read};
use faults::{Fault, Layer};
use std::alloc::Global;

/// What is left of a sheet, where it ends, where the command in hand begins, and the lines so far.
#[derive(Drop)]
pub(crate) struct Progress<'a> {
    pub(crate) rest: &'a [u8],
    pub(crate) end: usize,
    pub(crate) at: usize,
    pub(crate) lines: String,
    ghost within: { length rest.now ≤ end },
}

impl<'a> Progress<'a> {
    /// A sheet of which nothing is read.
    pub(crate) fn new(heap: Global, sheet: &'a [u8]) -> Progress<'a>
        ensures rest { result.rest.now ≡ sheet.now }
        ensures end { result.end ≡ length sheet.now }
        ensures lines { string_bytes result.lines ≡ [] }
    {
        Progress {
            rest: sheet,
            end: sheet.len(),
            at: 0,
            lines: String::new(heap),
        }
    }

    /// Takes the next command in hand; `None` where the sheet ends.
    pub(crate) fn next(&mut self) -> Result<Option<Command>, Fault>
        ensures command { result ≡ result_map_both (λ o. o) by_sheet (reading self.old.rest.now) }
        ensures at { self.new.at ≡ self.old.end - length self.old.rest.now }
        ensures end { self.new.end ≡ self.old.end }
        ensures lines { string_bytes self.new.lines ≡ string_bytes self.old.lines }
        ensures rest { IfOk result (λ o. IfSome o (λ c. self.new.rest.now ≡ drop (width c) self.old.rest.now)) }
        ensures shorter { IfOk result (λ o. IfSome o (λ _. length self.new.rest.now < length self.old.rest.now)) }
    {
        self.at = self.end - self.rest.len();
        let Some((command, rest)) = read(self.rest).map_err(|cause| cause.by(Layer::Sheet))? else {
            return Ok(None);
        };
        self.rest = rest;
        Ok(Some(command))
    }
}
