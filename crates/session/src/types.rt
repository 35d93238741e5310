//! The states that a table goes through. None can be copied or let go: each call takes one and hands the next one back.
ghost use Rattle.std.specs.Prelude.{◌≤◌};

/// A table that is being filled: its number of parts, and of rows.
pub struct Table {
    pub(crate) p: usize,
    pub(crate) rows: usize,
    ghost some: { 1 ≤ p },
    ghost few: { p ≤ 16 },
    ghost most: { rows ≤ 512 },
}

/// A session that is open: the table's numbers, the cubes of its off list, and the cubes of its solution.
pub struct Open {
    pub(crate) p: usize,
    pub(crate) rows: usize,
    pub(crate) off: usize,
    pub(crate) count: usize,
    ghost some: { 1 ≤ p },
    ghost few: { p ≤ 16 },
    ghost most: { rows ≤ 512 },
    ghost listed: { off ≤ 4096 },
    ghost counted: { count ≤ rows },
}
