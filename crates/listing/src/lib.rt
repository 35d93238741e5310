//! The text of a cube, as the lines of a list have it, written into a lent slice of bytes.
#![tactic(auto)]

ghost use Rattle.std.specs.Prelude.{◌≡◌, ◌+◌, ◌<◌, ◌≤◌, [], ◌∷◌, map, length, IfOk, string_bytes, IsUtf8, decimal};
ghost use Rattle.cubes.specs.Areas.{overlay};
ghost use Rattle.listing.specs.Text.{mark, marks, ternary_mark, part_text, gap, cube_text, cube_line, heading_line};
ghost use Rattle.listing.specs.Lines.{Appended};

use parts::Part;
use std::alloc::{AllocError, Global};

pub mod laws;

// A lent line, and how many of its bytes are written. No `Display`: a caller lends the bytes and may have no heap, and a `write!` into a lent
// slice promises nothing of what the slice holds then, nor of the bytes beyond.
struct Line<'a> {
    bytes: &'a mut [u8],
    len: usize,
}

// The mark of a value, by whether it is a member. No `From`: which bytes are marks is this format's alone.
fn value_mark(member: bool) -> u8
    ensures { result ≡ mark member }
{
    if member { b'1' } else { b'0' }
}

// The one mark of a part with at most the values 0 and 1: no `From`, as above.
fn ternary_mark<P: Part>(part: P) -> u8
    ensures { result ≡ ternary_mark (P.set part) }
{
    match (part.contains(0), part.contains(1)) {
        (true, true) => b'-',
        (true, false) => b'0',
        (false, true) => b'1',
        (false, false) => b'~',
    }
}

impl Line<'_> {
    // One byte more.
    fn push(&mut self, byte: u8)
        requires { self.old.len < length self.old.bytes.now }
        ensures { Appended (byte ∷ []) self.old self.new }
    {
        self.bytes[self.len] = byte;
        self.len += 1;
    }

    // A mark for each value that the universe's part `whole` has.
    fn marks<P: Part>(&mut self, whole: P, part: P)
        requires { self.old.len + 64 ≤ length self.old.bytes.now }
        ensures { Appended (marks P.MOST (P.set whole) (P.set part)) self.old self.new }
    {
        // Over values, not places: a part has no list of them.
        for v in 0..P::MOST {
            if whole.contains(v) {
                self.push(value_mark(part.contains(v)));
            }
        }
    }

    // A part.
    fn part<P: Part>(&mut self, whole: P, part: P)
        requires { self.old.len + 64 ≤ length self.old.bytes.now }
        ensures { Appended (part_text P.MOST (P.set whole) (P.set part)) self.old self.new }
    {
        if P::MOST == 2 {
            self.push(ternary_mark(part));
        } else {
            self.marks(whole, part);
        }
    }

    // What stands before part `i`.
    fn gap<P: Part>(&mut self, i: usize)
        requires { self.old.len < length self.old.bytes.now }
        ensures { Appended (gap P.MOST i) self.old self.new }
    {
        if i > 0 && P::MOST != 2 {
            self.push(b' ');
        }
    }

    // The digits of `n`, one by one: the text that the library makes of a number would have to be pushed byte by byte too.
    fn decimal(&mut self, n: usize)
        requires { self.old.len + length (decimal n) ≤ length self.old.bytes.now }
        ensures { Appended (decimal n) self.old self.new }
    {
        if n >= 10 {
            self.decimal(n / 10);
        }
        self.push(b'0' + (n % 10) as u8);
    }
}

/// Writes the line of `cube`, newline included, from the start of `line`, and returns how long it is; the bytes beyond stay.
/// The cube has as many parts as the universe, at most 16, and `line` at least 1,040 bytes: 64 marks to a part, a space between parts, a newline.
pub fn write_cube<P: Part>(universe: &[P], cube: &[P], line: &mut [u8]) -> usize
    requires parts { length universe.now ≡ length cube.now }
    requires few { length cube.now ≤ 16 }
    requires room { 1040 ≤ length line.old }
    ensures text { line.new ≡ overlay (cube_line P.MOST (map P.set universe.now) (map P.set cube.now)) line.old }
    ensures size { result ≡ length (cube_line P.MOST (map P.set universe.now) (map P.set cube.now)) }
    ensures bound { result ≤ 1040 }
{
    let mut text = Line {
        bytes: line,
        len: 0,
    };
    // Over one slice, the other by number: over both by `zip` a line of ternary parts takes twice the time.
    for (i, part) in cube.iter().enumerate() {
        text.gap::<P>(i);
        text.part(universe[i], *part);
    }
    text.push(b'\n');
    let Line { bytes: _, len } = text;
    len
}

// A string of bytes that are known to be text: what `from_utf8` may refuse can't come.
fn text_of(heap: Global, bytes: &[u8]) -> Result<String, AllocError>
    requires { IsUtf8 bytes.now }
    ensures { IfOk result (λ s. string_bytes s ≡ bytes.now) }
{
    let text = std::str::from_utf8(bytes).unwrap();
    String::from_str(heap, text)
}

/// The text of `cube`, with no newline. The cube has as many parts as the universe, at most 16.
/// `write_cube` writes it, which asks for lent bytes, so that there is one way to show a cube.
pub fn cube_text<P: Part>(heap: Global, universe: &[P], cube: &[P]) -> Result<String, AllocError>
    requires parts { length universe.now ≡ length cube.now }
    requires few { length cube.now ≤ 16 }
    ensures { IfOk result (λ s. string_bytes s ≡ cube_text P.MOST (map P.set universe.now) (map P.set cube.now)) }
{
    let mut line = [0u8; 1040];
    let size = write_cube(universe, cube, &mut line);
    text_of(heap, &line[0..size - 1])
}

/// Writes the line before a list of `count` cubes from the start of `line`, and returns how long it is; the bytes beyond stay.
/// `line` has at least 24 bytes.
pub fn write_heading(count: usize, line: &mut [u8]) -> usize
    requires { 24 ≤ length line.old }
    ensures text { line.new ≡ overlay (heading_line count) line.old }
    ensures size { result ≡ length (heading_line count) }
    ensures bound { result ≤ 24 }
{
    let mut text = Line {
        bytes: line,
        len: 0,
    };
    text.push(b'L');
    text.push(b' ');
    text.decimal(count);
    text.push(b'\n');
    let Line { bytes: _, len } = text;
    len
}
