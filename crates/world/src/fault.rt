// Why a world stops.

ghost use Rattle.std.specs.Prelude.{◌≡◌};
ghost use Rattle.world.specs.declared.fault.WorldFault.TheVariants.{Memory};

use std::alloc::AllocError;
use thiserror::Error;

/// Why a world takes no further step.
#[derive(Clone, Copy, Debug, PartialEq, Eq, Error)]
pub enum WorldFault {
    /// The step names a loop, a worker or an async that is not there.
    #[error("NoSuch")]
    NoSuch,
    /// Memory was refused.
    #[error("Memory")]
    Memory,
}

impl WorldFault {
    ghost use Rattle.world.specs.Making.{world_fault_number};

    /// The fault's number: 1 NoSuch, 2 Memory.
    pub fn code(self) -> u32
        ensures { result ≡ world_fault_number self }
    {
        match self {
            WorldFault::NoSuch => 1,
            WorldFault::Memory => 2,
        }
    }
}

impl From<AllocError> for WorldFault {
    ghost from_gives = { λ _ fault. fault ≡ Memory };

    fn from(_: AllocError) -> WorldFault {
        WorldFault::Memory
    }
}
