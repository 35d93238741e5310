//! What a table or a session says of itself, and its end. None is let go but by `close`.
ghost use Rattle.std.specs.Prelude.{◌≡◌};

use crate::types::{Open, Table};

impl Table {
    /// How many rows it has.
    pub fn rows(&self) -> usize
        ensures { result ≡ self.now.rows }
    {
        self.rows
    }

    /// Ends it, and says how many rows it had.
    pub fn close(self) -> usize
        ensures { result ≡ self.rows }
    {
        let rows = self.rows();
        let Table { p: _, rows: _ } = self;
        rows
    }
}

impl Open {
    /// How many cubes the solution has.
    pub fn cubes(&self) -> usize
        ensures { result ≡ self.now.count }
    {
        self.count
    }

    /// How many cubes the off list has.
    pub fn off_cubes(&self) -> usize
        ensures { result ≡ self.now.off }
    {
        self.off
    }

    /// Ends it, and says how many cubes the solution has.
    pub fn close(self) -> usize
        ensures { result ≡ self.count }
    {
        let cubes = self.cubes();
        let Open {
            p: _,
            rows: _,
            off: _,
            count: _,
        } = self;
        cubes
    }
}
