//! What is printed of a side that has changed.
use crate::areas::Side;
use std::fmt;

// One number for all of them.
fn sum_of(numbers: &[u64]) -> u64 {
    numbers.iter().fold(0, |sum: u64, number| {
        sum.wrapping_mul(1_000_003)
            .wrapping_add(*number)
            .wrapping_add(1)
    })
}

/// A side as numbers, to be printed in full or by their sum.
#[derive(Clone, Copy)]
pub(crate) struct Shown<'a> {
    pub(crate) side: Side,
    pub(crate) numbers: &'a [u64],
    pub(crate) by_sum: bool,
}

impl fmt::Display for Shown<'_> {
    fn fmt<W: fmt::Write>(&self, f: &mut fmt::Formatter<W>) -> fmt::Result {
        let side = self.side;
        write!(f, "{side}")?;
        if self.by_sum {
            let sum = sum_of(self.numbers);
            return write!(f, " sum {sum:x}");
        }
        for number in self.numbers {
            write!(f, " {number:x}")?;
        }
        Ok(())
    }
}
