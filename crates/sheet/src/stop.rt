//! Why a sheet is not obeyed to its end.
ghost use Rattle.std.specs.Prelude.{◌≡◌};
ghost use Rattle.sheet.specs.declared.stop.Stop.TheVariants.{Refused, Memory};

use faults::Fault;
use std::alloc::AllocError;

/// A command was refused, or there is no memory.
#[derive(Drop)]
pub(crate) enum Stop {
    Refused(Fault),
    Memory(AllocError),
}

impl From<Fault> for Stop {
    ghost from_gives = { λ fault stop. stop ≡ Refused fault };

    fn from(fault: Fault) -> Stop {
        Stop::Refused(fault)
    }
}

impl From<AllocError> for Stop {
    ghost from_gives = { λ e stop. stop ≡ Memory e };

    fn from(e: AllocError) -> Stop {
        Stop::Memory(e)
    }
}
