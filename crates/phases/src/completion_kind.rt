// How a request came to its end, as its after-work callback is told. Code and definitions cite these numbers by name.

/// It is done.
pub const DONE: u32 = 0;
/// Its run trapped.
pub const TRAP: u32 = 1;
/// Its run had too many calls open.
pub const DEPTH: u32 = 2;
/// Its run had spent its fuel.
pub const SPENT: u32 = 3;
/// Memory was refused.
pub const NO_MEMORY: u32 = 4;
/// It was cancelled before a worker started it.
pub const CANCELLED: u32 = 5;
