//! The lengths of areas.

/// The lengths of the six areas: the universe in parts, the line in bytes, the others in cubes.
#[derive(Clone, Copy, Default)]
pub struct Lengths {
    pub universe: usize,
    pub table: usize,
    pub off: usize,
    pub solution: usize,
    pub work: usize,
    pub line: usize,
}
