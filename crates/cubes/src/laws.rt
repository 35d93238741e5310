//! Theorems on the definitions: each function's contract is one, and its body has nothing to do.
ghost use Rattle.cubes.specs.Examples.{AllRight, WorkedCover};
ghost use Rattle.cubes.specs.Theorems.{RestExact, RestApart, MeetsExact, CoversExact, OnRowsLawful};

/// What is left of a universe when the rows are cut out of it holds exactly the off vertices.
pub fn rest_is_exact()
    ensures { RestExact }
{}

/// No vertex is in two cubes of what is left.
pub fn rest_is_apart()
    ensures { RestApart }
{}

/// Cubes meet exactly if they share a vertex.
pub fn meets_is_exact()
    ensures { MeetsExact }
{}

/// A cube covers another exactly if it holds all of its vertices.
pub fn covers_is_exact()
    ensures { CoversExact }
{}

/// The ON rows of a table hold every care vertex and no off vertex.
pub fn on_rows_are_lawful()
    ensures { OnRowsLawful }
{}

/// The operations make what the worked cases say.
pub fn cases_are_right()
    ensures { AllRight }
{}

/// The worked cover is lawful, prime and irredundant.
pub fn cover_is_worked()
    ensures { WorkedCover }
{}
