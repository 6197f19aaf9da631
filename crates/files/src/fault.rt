// What stands in the way of reading and writing.

use std::alloc::{AllocError, AllocFailed};
use std::io::{self, ErrorKind};

/// Why reading or writing failed.
#[derive(Clone, Copy, Debug)]
pub enum IoFault<'a> {
    /// Out of memory.
    Memory,
    /// The file of this name can't be read, for this reason.
    Unread { name: &'a str, reason: io::Error },
    /// The file of this name has more than `most` bytes, the limit.
    TooLong { name: &'a str, most: usize },
    /// The file of this name can't be written, for this reason.
    Unwritten { name: &'a str, reason: io::Error },
    /// The output can't be written, for this reason.
    Output(io::Error),
}

/// This fault, unless the reason is that memory ran out.
fn unless_memory(reason: io::Error, fault: IoFault<'_>) -> IoFault<'_> {
    match reason.kind() {
        ErrorKind::OutOfMemory => IoFault::Memory,
        _ => fault,
    }
}

impl<'a> IoFault<'a> {
    /// The file of this name is not read, for this reason.
    pub(crate) fn unread(name: &'a str, reason: io::Error) -> IoFault<'a> {
        unless_memory(reason, IoFault::Unread { name, reason })
    }

    /// The file of this name is not written, for this reason.
    pub(crate) fn unwritten(name: &'a str, reason: io::Error) -> IoFault<'a> {
        unless_memory(reason, IoFault::Unwritten { name, reason })
    }
}

/// The output is not written, for this reason.
impl From<io::Error> for IoFault<'_> {
    fn from(reason: io::Error) -> Self {
        unless_memory(reason, IoFault::Output(reason))
    }
}

impl From<AllocError> for IoFault<'_> {
    fn from(_error: AllocError) -> Self {
        IoFault::Memory
    }
}

impl<T: Drop> From<AllocFailed<T>> for IoFault<'_> {
    fn from(_error: AllocFailed<T>) -> Self {
        IoFault::Memory
    }
}
