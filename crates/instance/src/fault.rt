// Why there is no instance of a module.

ghost use Rattle.std.specs.Prelude.{◌≡◌};
ghost use Rattle.instance.specs.Faults.{number_of_fault};
ghost use Rattle.instance.specs.declared.fault.InstFault.TheVariants.{Memory};

use std::alloc::AllocError;
use thiserror::Error;

/// Why there is no instance of a module (WebAssembly Core 1.0, 4.5.4).
#[derive(Clone, Copy, Debug, PartialEq, Eq, Error)]
pub enum InstFault {
    /// An element segment doesn't fit the table.
    #[error("ElementRange")]
    ElementRange,
    /// A data segment doesn't fit the memory.
    #[error("DataRange")]
    DataRange,
    /// No memory was left.
    #[error("Memory")]
    Memory,
}

impl InstFault {
    /// The fault's number: 1 ElementRange, 2 DataRange, 3 Memory.
    pub fn code(self) -> u32
        ensures { result ≡ number_of_fault self }
    {
        match self {
            InstFault::ElementRange => 1,
            InstFault::DataRange => 2,
            InstFault::Memory => 3,
        }
    }
}

impl From<AllocError> for InstFault {
    ghost from_gives = { λ _ fault. fault ≡ Memory };

    fn from(_: AllocError) -> InstFault {
        InstFault::Memory
    }
}
