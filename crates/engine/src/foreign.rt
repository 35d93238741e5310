//! No cube of a solution may meet the off list.
ghost use Rattle.std.specs.Prelude.{◌≡◌, map, Ok};
ghost use Rattle.cubes.specs.Lists.{sets_of};
ghost use Rattle.moves.specs.Sound.{Apart};
ghost use Rattle.engine.specs.Foreign.{first_met, foreign_verdict};

use cubes::cube::meets;
use cubes::list::Cubes;
use faults::Cause;
use parts::Part;

// The first off cube that the cube meets.
fn first_met<P: Part>(cube: &[P], off: &Cubes<P>) -> Option<usize>
    ensures { result ≡ first_met 0 (map P.set cube.now) (sets_of P.set off.now) }
{
    off.iter().position(|r| meets(cube, r))
}

/// Whether no cube of a solution meets an off cube.
pub fn check_foreign<P: Part>(solution: &Cubes<P>, off: &Cubes<P>) -> Result<(), Cause>
    ensures value { result ≡ foreign_verdict 0 (sets_of P.set off.now) (sets_of P.set solution.now) }
    ensures apart { result ≡ Ok tt → Apart (sets_of P.set off.now) (sets_of P.set solution.now) }
{
    for (i, cube) in solution.iter().enumerate() {
        if let Some(j) = first_met(cube, off) {
            return Err(Cause::Foreign { cube: i, off: j });
        }
    }
    Ok(())
}
