// How far a request has come.

use order::{Order, Outcome};

/// How far an outstanding request has come.
#[derive(Drop)]
pub enum Stage {
    /// It is not handed out yet: its order, to be handed out.
    Open(Order),
    /// A worker may have it.
    HandedOut,
    /// A reply was taken.
    Answered(Outcome),
    /// It was cancelled before a worker started it.
    Cancelled,
}

/// Whether a request can be cancelled.
#[derive(Clone, Copy, Debug, PartialEq, Eq)]
pub enum CancelState {
    /// It is not outstanding, or cancelled already.
    Unknown,
    /// It is answered.
    Answered,
    /// It is neither, in this slot.
    Pending { slot: u32 },
}

/// What an after-work callback gets of a request.
#[derive(Drop)]
pub struct Completion {
    /// How it came to its end: a number of `completion_kind`.
    pub kind: u32,
    /// The result, the trap's number, or why it was not done.
    pub code: u32,
    /// The bytes that the callback may read.
    pub bytes: Vec<u8>,
}
