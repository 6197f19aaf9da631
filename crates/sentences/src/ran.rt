// What ran in a loop, or for it.

use events::phase::EntryKind;
use std::fmt;

/// A callback of a loop, or the work of one of its requests, as in `timer 1` and `request 3`.
#[derive(Clone, Copy, Debug)]
pub enum What {
    /// A callback, with the number of its handle, or of its request if the kind is `After`. The start function and `uv_main` have none.
    Callback { kind: EntryKind, number: u32 },
    /// The work of this request.
    Work { request: u32 },
}

/// What ran in this loop, or for it, as in `loop 0: timer 1`.
#[derive(Clone, Copy, Debug)]
pub struct Ran {
    pub loop_no: u32,
    pub what: What,
}

impl Ran {
    /// A callback of this loop.
    pub fn callback(loop_no: u32, kind: EntryKind, number: u32) -> Ran {
        Ran {
            loop_no,
            what: What::Callback { kind, number },
        }
    }

    /// The work of a request of this loop.
    pub fn work(loop_no: u32, request: u32) -> Ran {
        Ran {
            loop_no,
            what: What::Work { request },
        }
    }
}

fn write_callback<W: fmt::Write>(
    f: &mut fmt::Formatter<W>,
    kind: EntryKind,
    number: u32,
) -> fmt::Result {
    match kind {
        EntryKind::Start => f.write_str("start function"),
        EntryKind::Main => f.write_str("uv_main"),
        EntryKind::Timer => write!(f, "timer {number}"),
        EntryKind::Idle => write!(f, "idle {number}"),
        EntryKind::After => write!(f, "after-work of request {number}"),
        EntryKind::Async => write!(f, "async {number}"),
        EntryKind::Check => write!(f, "check {number}"),
        EntryKind::Close => write!(f, "close {number}"),
    }
}

impl fmt::Display for What {
    fn fmt<W: fmt::Write>(&self, f: &mut fmt::Formatter<W>) -> fmt::Result {
        match self {
            What::Callback { kind, number } => write_callback(f, *kind, *number),
            What::Work { request } => write!(f, "request {request}"),
        }
    }
}

impl fmt::Display for Ran {
    fn fmt<W: fmt::Write>(&self, f: &mut fmt::Formatter<W>) -> fmt::Result {
        let (loop_no, what) = (self.loop_no, self.what);
        write!(f, "loop {loop_no}: {what}")
    }
}
