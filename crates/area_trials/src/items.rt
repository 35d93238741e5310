//! A case as a list of numbers: each number of the line, and each letter by its code.
ghost use Rattle.std.specs.Prelude.{◌≤◌, length};

use std::alloc::{AllocError, Global};

// The digits of a word as one number. By hand, since it wraps, where `parse` fails.
fn number_of(word: &[u8]) -> Option<u64> {
    word.iter()
        .filter_map(|byte| char::from(*byte).to_digit(10))
        .map(u64::from)
        .reduce(|number, digit| number.wrapping_mul(10).wrapping_add(digit))
}

/// The items of a line: of each word its letters, and then its number.
pub(crate) fn items_of(heap: Global, line: &[u8]) -> Result<Vec<u64>, AllocError> {
    let mut items = Vec::new(heap);
    for word in line.split(|byte| *byte == b' ') {
        let letters = word.iter().filter(|byte| !byte.is_ascii_digit());
        items.extend(letters.map(|byte| u64::from(*byte)))?;
        items.extend(number_of(word))?;
    }
    Ok(items)
}

/// The items that are still to be read.
#[derive(Drop)]
pub(crate) struct Items<'a> {
    pub(crate) rest: &'a [u64],
}

impl Items<'_> {
    /// N numbers: the next items, `n` of them at most; the others are 0.
    pub(crate) fn first<const N: usize>(&mut self, n: usize) -> [u64; N]
        ensures { length self.new.rest.now ≤ length self.old.rest.now }
    {
        let n = n.min(N).min(self.rest.len());
        let (first, rest) = self.rest.split_at(n);
        self.rest = rest;
        let mut numbers = [0; N];
        numbers[..n].copy_from_slice(first);
        numbers
    }

    /// The next N items, 0 for each that is not there.
    pub(crate) fn numbers<const N: usize>(&mut self) -> [u64; N]
        ensures { length self.new.rest.now ≤ length self.old.rest.now }
    {
        self.first(N)
    }
}
