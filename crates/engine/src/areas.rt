//! The checks of all areas.
ghost use Rattle.std.specs.Prelude.{◌≡◌};
ghost use Rattle.engine.specs.Areas.{areas_verdict};

use faults::Cause;
pub use table::areas::Lengths;
use table::begin::check_area;

/// Whether each area has what is needed, the lowest first. An area that a call does not use needs nothing.
// Areas go by number, as `check_area` takes them.
pub fn check_areas(has: Lengths, needs: Lengths) -> Result<(), Cause>
    ensures { result ≡ areas_verdict has needs }
{
    check_area(1, has.universe, needs.universe)?;
    check_area(2, has.table, needs.table)?;
    check_area(3, has.off, needs.off)?;
    check_area(4, has.solution, needs.solution)?;
    check_area(5, has.work, needs.work)?;
    check_area(6, has.line, needs.line)
}
