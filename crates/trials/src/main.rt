//! Runs the sheets of standard input, and says which of them print other lines than they should. A case is a line: the sheet in hexadecimal
//! digits, `|`, and its lines joined by `/`.
#![tactic(auto)]

ghost use Rattle.std.specs.Prelude.{◌<◌, IfSome};

use std::alloc::{AllocError, Global};
use std::fmt;
use std::io::{BufRead, BufReader};

// What is wrong with a case.
#[derive(Drop)]
enum Flaw<'a> {
    // It has no `|`.
    NoCase(&'a str),
    // What stands before it are no digits of bytes.
    NoSheet(&'a str),
    // The sheet prints other lines.
    Prints {
        digits: &'a str,
        found: String,
        wanted: String,
    },
}

impl fmt::Display for Flaw<'_> {
    fn fmt<W: fmt::Write>(&self, f: &mut fmt::Formatter<W>) -> fmt::Result {
        match self {
            Flaw::NoCase(case) => write!(f, "no case: {case}"),
            Flaw::NoSheet(digits) => write!(f, "no sheet: {digits}"),
            Flaw::Prints {
                digits,
                found,
                wanted,
            } => write!(f, "{digits} prints {found:?} in place of {wanted:?}"),
        }
    }
}

// What a hexadecimal digit stands for; capitals are none, so no `from_str_radix`.
fn digit(byte: u8) -> Option<u32>
    ensures { IfSome result (λ d. d < 16) }
{
    if byte.is_ascii_uppercase() {
        return None;
    }
    char::from(byte).to_digit(16)
}

// The byte that two of these digits stand for.
fn byte_of(pair: &[u8]) -> Option<u8> {
    let [high, low] = pair else {
        return None;
    };
    Some((digit(*high)? * 16 + digit(*low)?) as u8)
}

// The bytes that a text of these digits stands for.
fn bytes_of(heap: Global, digits: &str) -> Result<Option<Vec<u8>>, AllocError> {
    digits.as_bytes().chunks(2).map(byte_of).collect(heap)
}

// The lines that are joined by `/`, each with a newline.
fn lines_of(heap: Global, joined: &str) -> Result<String, AllocError> {
    let mut lines = String::new(heap);
    if joined.is_empty() {
        return Ok(lines);
    }
    for line in joined.split('/') {
        lines.push_str(line)?;
        lines.push('\n')?;
    }
    Ok(lines)
}

// Runs a case: what is wrong with it, if anything is.
fn flaw_of(heap: Global, case: &str) -> Result<Option<Flaw<'_>>, AllocError> {
    let Some((digits, expected)) = case.split_once('|') else {
        return Ok(Some(Flaw::NoCase(case)));
    };
    let Some(bytes) = bytes_of(heap, digits)? else {
        return Ok(Some(Flaw::NoSheet(digits)));
    };
    let found = sheet::lines(heap, &bytes)?;
    let wanted = lines_of(heap, expected)?;
    if found == wanted {
        return Ok(None);
    }
    Ok(Some(Flaw::Prints {
        digits,
        found,
        wanted,
    }))
}

fn main(rt: HostRuntime) -> anyhow::Result<()> {
    let mut cases: u64 = 0;
    let mut wrong: u64 = 0;
    let lines = BufReader::new(rt.alloc(), rt.stdin())?.lines(rt.alloc());
    for (number, line) in (1..).zip(lines) {
        let line = line?;
        cases = number;
        if let Some(flaw) = flaw_of(rt.alloc(), line.as_str())? {
            println!(rt; "case {number}: {flaw}")?;
            wrong = wrong.wrapping_add(1);
        }
    }
    println!(rt; "{cases} cases, {wrong} wrong")?;
    Ok(())
}
