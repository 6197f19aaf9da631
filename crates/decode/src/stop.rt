// Where reading stops.

ghost use Rattle.std.specs.Prelude.{◌≡◌, ◌≢◌, ◌+◌, ◌^◌, ◌<◌, ◌≤◌, length};
ghost use Rattle.leb.specs.declared.fault.LebFault.TheVariants as leb_fault;
ghost use Rattle.decode.specs.declared.fault.DecodeFault.TheVariants.{End, Memory};

use crate::fault::DecodeFault;
use leb::LebFault;
use std::alloc::{AllocError, AllocFailed};

/// Why reading stops, and where.
#[derive(Clone, Copy)]
pub(crate) struct ReadingStop {
    pub fault: DecodeFault,
    /// How many bytes of the text there are from the place on.
    pub left: usize,
}

impl ReadingStop {
    /// At the end of the text.
    pub(crate) fn at_end(fault: DecodeFault) -> ReadingStop
        ensures { result.fault ≡ fault }
    {
        ReadingStop { fault, left: 0 }
    }

    /// At the first of the bytes that are left.
    pub(crate) fn before(fault: DecodeFault, rest: &[u8]) -> ReadingStop
        ensures told { result.fault ≡ fault }
        ensures left { result.left ≡ length rest.now }
    {
        ReadingStop {
            fault,
            left: rest.len(),
        }
    }

    /// At the byte before those that are left.
    pub(crate) fn behind(fault: DecodeFault, rest: &[u8]) -> ReadingStop
        ensures told { result.fault ≡ fault }
        ensures left { result.left ≡ length rest.now + 1 }
    {
        ReadingStop::before(fault, rest).followed_by(1)
    }

    /// At the last byte of an integer at the start, which has at most `longest` bytes.
    pub(crate) fn in_integer(fault: LebFault, bytes: &[u8], longest: usize) -> ReadingStop
        ensures ended { fault ≡ leb_fault.End → result.fault ≡ End }
        ensures left { fault ≢ leb_fault.End → longest ≤ length bytes.now → result.left + longest ≡ length bytes.now + 1 }
    {
        match fault {
            LebFault::End => ReadingStop::at_end(DecodeFault::End),
            LebFault::TooLong | LebFault::Range => ReadingStop {
                fault: DecodeFault::Leb,
                left: bytes.len().saturating_sub(longest).saturating_add(1),
            },
        }
    }

    /// This stop in a text after which so many more bytes are read.
    pub(crate) fn followed_by(self, bytes: usize) -> ReadingStop
        ensures told { result.fault ≡ self.fault }
        ensures left { self.left + bytes < 2 ^ 64 → result.left ≡ self.left + bytes }
    {
        ReadingStop {
            fault: self.fault,
            left: self.left.saturating_add(bytes),
        }
    }
}

impl From<AllocError> for ReadingStop {
    ghost from_gives = { λ _ stop. stop.fault ≡ Memory };

    fn from(_failed: AllocError) -> ReadingStop {
        ReadingStop::at_end(DecodeFault::Memory)
    }
}

impl<T: Drop> From<AllocFailed<T>> for ReadingStop {
    ghost from_gives = { λ _ stop. stop.fault ≡ Memory };

    fn from(_failed: AllocFailed<T>) -> ReadingStop {
        ReadingStop::at_end(DecodeFault::Memory)
    }
}

impl From<ReadingStop> for DecodeFault {
    ghost from_gives = { λ stop fault. fault ≡ stop.fault };

    fn from(stop: ReadingStop) -> DecodeFault {
        stop.fault
    }
}
