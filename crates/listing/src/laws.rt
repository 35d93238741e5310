//! Theorems on the definitions: each function's contract is one, and its body has nothing to do.
ghost use Rattle.listing.specs.Examples.{AllRight};
ghost use Rattle.listing.specs.Theorems.{LineFits};

/// The line of a cube with at most 16 parts has at most 1,040 bytes.
pub fn line_fits()
    ensures { LineFits }
{}

/// Cubes and headings print as the worked cases say.
pub fn cases_are_right()
    ensures { AllRight }
{}
