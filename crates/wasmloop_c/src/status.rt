// What a call answers.

ghost use Rattle.std.specs.Prelude.{◌≡◌};
ghost use Rattle.wasmloop_c.specs.Statuses.{AreStatuses, status_in};

/// It is done.
pub const OK: u32 = 0;

/// There is nothing of what was asked for.
pub const NONE: u32 = 1;

/// The handle is empty: nothing was made in it, or it was dropped.
pub const EMPTY: u32 = 2;

/// The handle is of another kind, or, where it was to be filled, not empty.
pub const KIND: u32 = 3;

/// Memory was refused.
pub const MEMORY: u32 = 4;

/// The bytes are no guest.
pub const REFUSED: u32 = 5;

/// A number is out of its range.
pub const RANGE: u32 = 6;

/// The reply is not one that the loop waits for.
pub const STRANGER: u32 = 7;

/// The sends from outside are used up.
pub const USED_UP: u32 = 8;

/// The module exports no `uv_work`.
pub const NO_WORK: u32 = 10;

/// The start function did not return.
pub const NOT_STARTED: u32 = 11;

/// The arguments are not as many as the function takes, or one is past its type.
pub const ARGUMENTS: u32 = 12;

/// The statuses are those of capi/include/wasmloop.h.
pub fn are_numbers()
    ensures { AreStatuses }
{}

/// What C is answered: `MEMORY` where memory was refused, which the error shows, and else the status.
pub fn status_of<E: Drop>(answer: Result<u32, E>) -> u32
    ensures { result ≡ status_in answer }
{
    match answer {
        Ok(status) => status,
        Err(_) => MEMORY,
    }
}
