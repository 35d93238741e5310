//! A sheet of commands, and the lines that the bench prints for it.
#![tactic(auto)]

mod areas;
mod filling;
mod progress;
mod refusing;
mod sizing;
mod stage;
mod starting;
mod stop;
mod types;

ghost use Rattle.std.specs.Prelude.{◌≡◌, ◌++◌, length, IfOk, string_bytes, nat_lt};
ghost use Rattle.sheet.specs.Bench as bench;
ghost use Rattle.sheet.specs.Lines.{lines_from, lines_of};
ghost use Rattle.sheet.specs.Views.{Ends};

use faults::{Cause, Layer};
use parts::{Ternary, Word};
use progress::Progress;
use sizing::size_parts;
use starting::{Kind, choose};
use std::alloc::{AllocError, Global};
use stop::Stop;

/// The most bytes of a sheet.
pub const SHEET_MOST: usize = 4096;

// Whether there are more bytes than that.
fn is_long(sheet: &[u8]) -> bool
    ensures { result ≡ nat_lt 4096 (length sheet.now) }
{
    sheet.len() > SHEET_MOST
}

// Obeys a sheet from its start.
fn obey(progress: &mut Progress<'_>) -> Result<(), Stop>
    ensures { Ends result progress.new (string_bytes progress.old.lines ++ lines_from progress.old.end bench.start progress.old.rest.now) }
{
    let Some(command) = progress.next()? else {
        return Ok(());
    };
    match choose(command)? {
        Kind::Word => size_parts::<Word>(progress),
        Kind::Ternary => size_parts::<Ternary>(progress),
    }
}

/// The lines for a sheet, newlines included, up to the first refusal. Want of memory is the only error.
pub fn lines(heap: Global, sheet: &[u8]) -> Result<String, AllocError>
    ensures { IfOk result (λ s. string_bytes s ≡ lines_of sheet.now) }
{
    if is_long(sheet) {
        return Cause::Long.by(Layer::Sheet).line(heap, 0);
    }
    let mut progress = Progress::new(heap, sheet);
    let ended = obey(&mut progress);
    let Progress { mut lines, at, .. } = progress;
    match ended {
        Ok(()) => Ok(lines),
        Err(Stop::Refused(fault)) => {
            let line = fault.line(heap, at)?;
            lines.push_str(line.as_str())?;
            Ok(lines)
        }
        Err(Stop::Memory(e)) => Err(e),
    }
}
