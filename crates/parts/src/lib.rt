//! Kinds of part. A part of a cube is a set of values, all below the most that its kind can have; a kind says how such a set is kept.
//! In the clauses a set is a number: the value v is a member where bit v is set.
#![tactic(auto)]

ghost use Rattle.std.specs.Prelude.{◌≡◌, ℕ, ◌^◌, ◌<◌, ◌≤◌, ◌==◌, bit_and};
ghost use Rattle.parts.specs.Sets.{has, minus, some, whole};
ghost use Rattle.parts.specs.Kinds.{Made, Common, Joined, Outside, Emptied, Counted};
ghost use Rattle.parts.specs.Models.{word_set, ternary_set};
ghost use Rattle.std.proofs.Common.{rules};

/// A kind of part: how a set of values is kept. No method refuses, and none changes a set.
pub trait Part: Copy {
    /// The most values that a set of this kind can have, from 1 to 64: they are 0 up to it less 1.
    const MOST: u32;

    /// The set of values that stands behind a part.
    ghost set: { Self → ℕ };

    /// `MOST`, for clauses.
    ghost MOST: { ℕ };

    /// The set of the values below the most whose bits are set in `word`.
    fn make(word: u64) -> Self
        ensures { Made MOST word (set result) };

    /// The values that are in both.
    fn common(self, other: Self) -> Self
        ensures { Common (set self) (set other) (set result) };

    /// The values that are in either.
    fn joined(self, other: Self) -> Self
        ensures { Joined (set self) (set other) (set result) };

    /// The values of this set that the other lacks.
    fn outside(self, other: Self) -> Self
        ensures { Outside (set self) (set other) (set result) };

    /// Whether `v` is a member; no number at or past the most is.
    fn contains(self, v: u32) -> bool
        ensures { result ≡ has (set self) v };

    /// Whether there is no member.
    fn is_empty(self) -> bool
        ensures { Emptied (set self) result };

    /// How many members there are.
    fn count(self) -> u32
        ensures { Counted MOST (set self) result };

    ghost below: { (s : Self) → set s < 2 ^ MOST };

    ghost range: { (1 ≤ MOST) × (MOST ≤ 64) };
}

/// Whether each value of `part` is one of `other`.
pub fn lies_within<P: Part>(part: P, other: P) -> bool
    ensures { result ≡ (minus (P.set part) (P.set other) == 0) }
{
    part.outside(other).is_empty()
}

/// Whether some value is in both.
pub fn shares_value<P: Part>(part: P, other: P) -> bool
    ensures { result ≡ some (bit_and (P.set part) (P.set other)) }
{
    !part.common(other).is_empty()
}

/// The values of a set as a word: bit v is set where v is a member.
pub fn word_of<P: Part>(values: P) -> u64
    ensures { result ≡ P.set values }
{
    let mut word = 0;
    // Over values, not places: a set has no list of them.
    for v in 0..P::MOST {
        if values.contains(v) {
            word |= 1 << v;
        }
    }
    word
}

/// All values below a size as a word.
pub fn whole(size: usize) -> u64
    requires { size ≤ 64 }
    ensures { result ≡ whole size }
{
    if size == 0 {
        return 0;
    }
    u64::MAX >> (64 - size)
}

/// Up to 64 values, a bit for each.
#[derive(Clone, Copy)]
pub struct Word(pub u64);

impl Part for Word {
    const MOST: u32 = 64;

    ghost set = { word_set };

    ghost MOST = { 64 };

    ghost below = { Prim.search rules };

    ghost range = { Prim.search rules };

    fn make(word: u64) -> Word {
        Word(word)
    }

    fn common(self, other: Word) -> Word {
        Word(self.0 & other.0)
    }

    fn joined(self, other: Word) -> Word {
        Word(self.0 | other.0)
    }

    fn outside(self, other: Word) -> Word {
        Word(self.0 & !other.0)
    }

    fn contains(self, v: u32) -> bool {
        v < 64 && (self.0 >> v) & 1 == 1
    }

    fn is_empty(self) -> bool {
        self.0 == 0
    }

    fn count(self) -> u32 {
        self.0.count_ones()
    }
}

/// The two values 0 and 1, by the mark that is printed for their set: 0, 1, both (X, printed `-`) or none (printed `~`).
#[derive(Clone, Copy)]
pub enum Ternary {
    Zero,
    One,
    Both,
    Void,
}

impl Part for Ternary {
    const MOST: u32 = 2;

    ghost set = { ternary_set };

    ghost MOST = { 2 };

    ghost below = { Prim.search rules };

    ghost range = { Prim.search rules };

    fn make(word: u64) -> Ternary {
        match word % 4 {
            0 => Ternary::Void,
            1 => Ternary::Zero,
            2 => Ternary::One,
            _ => Ternary::Both,
        }
    }

    fn common(self, other: Ternary) -> Ternary {
        match (self, other) {
            (Ternary::Both, x) => x,
            (Ternary::Zero, Ternary::Zero | Ternary::Both) => Ternary::Zero,
            (Ternary::One, Ternary::One | Ternary::Both) => Ternary::One,
            _ => Ternary::Void,
        }
    }

    fn joined(self, other: Ternary) -> Ternary {
        match (self, other) {
            (Ternary::Void, x) => x,
            (Ternary::Zero, Ternary::Zero | Ternary::Void) => Ternary::Zero,
            (Ternary::One, Ternary::One | Ternary::Void) => Ternary::One,
            _ => Ternary::Both,
        }
    }

    fn outside(self, other: Ternary) -> Ternary {
        match (self, other) {
            (x, Ternary::Void) => x,
            (Ternary::Zero | Ternary::Both, Ternary::One) => Ternary::Zero,
            (Ternary::One | Ternary::Both, Ternary::Zero) => Ternary::One,
            _ => Ternary::Void,
        }
    }

    fn contains(self, v: u32) -> bool {
        match self {
            Ternary::Zero => v == 0,
            Ternary::One => v == 1,
            Ternary::Both => v < 2,
            Ternary::Void => false,
        }
    }

    fn is_empty(self) -> bool {
        matches!(self, Ternary::Void)
    }

    fn count(self) -> u32 {
        match self {
            Ternary::Zero | Ternary::One => 1,
            Ternary::Both => 2,
            Ternary::Void => 0,
        }
    }
}
