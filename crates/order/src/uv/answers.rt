// The numbers that a guest is answered where a call does not do what it asks, as a C library of errors has them: negative
// numbers, read as i32. Code and definitions cite them by name.

/// -1: the call is not one for this place.
pub const NOT_HERE: u32 = u32::MAX;
/// -11: there is no room for one more.
pub const NO_ROOM: u32 = u32::MAX - 10;
/// -12: memory was refused.
pub const NO_MEMORY: u32 = u32::MAX - 11;
/// -14: bytes lie outside the memory.
pub const OUTSIDE_MEMORY: u32 = u32::MAX - 13;
/// -16: what is to be cancelled was started or answered.
pub const BUSY: u32 = u32::MAX - 15;
/// -22: an argument is wrong.
pub const INVALID: u32 = u32::MAX - 21;
/// -28: all numbers of a kind are used up.
pub const NONE_LEFT: u32 = u32::MAX - 27;
/// -38: a function that the call needs is not exported.
pub const NO_SUCH_EXPORT: u32 = u32::MAX - 37;
/// -125: the code of a cancelled request.
pub const CANCELLED_CODE: u32 = u32::MAX - 124;
