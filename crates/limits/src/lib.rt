//! The limits on modules and on runs. Each stands here alone: the code and the definitions of all crates cite it by its name.
//!
//! docs/LIMITS.md says what comes past each of them.
#![tactic(auto)]

/// How many bytes a module may have.
pub const MAX_MODULE_BYTES: usize = 1_048_576;

/// How many function types a module may have.
pub const MAX_TYPES: u32 = 1024;

/// How many functions a module may import.
pub const MAX_IMPORTS: u32 = 64;

/// How many functions a module may define.
pub const MAX_FUNCTIONS: u32 = 4096;

/// How many globals a module may have.
pub const MAX_GLOBALS: u32 = 256;

/// How many exports a module may have.
pub const MAX_EXPORTS: u32 = 1024;

/// How many labels a `br_table` may have before its default.
pub const MAX_LABELS: u32 = 4096;

/// How many elements a table may have to begin with.
pub const MAX_TABLE_ELEMENTS: u32 = 4096;

/// How many pages a memory may have, to begin with and as it grows.
pub const MAX_PAGES: u32 = 64;

/// How many pages a module may declare as its memory's maximum.
pub const MAX_DECLARED_PAGES: u32 = 65_536;

/// How many bytes a page of memory has (WebAssembly Core 1.0, 4.2.8).
pub const PAGE_SIZE: usize = 65_536;

/// How many parameters a function type may have.
pub const MAX_PARAMS: u32 = 256;

/// How many results a function type may have.
pub const MAX_RESULTS: usize = 16;

/// How many results an imported function may have.
pub const MAX_IMPORT_RESULTS: usize = 1;

/// How many locals a body may declare, and how many it may have together with its parameters.
pub const MAX_LOCALS: usize = 256;

/// How many operands a body may have at a time.
pub const MAX_HEIGHT: usize = 256;

/// How deep blocks may lie in one another.
pub const MAX_NESTING: usize = 256;

/// How many calls of defined functions may stand open.
pub const MAX_DEPTH: u32 = 128;

/// How many bytes a work request, and its reply, may have.
pub const MAX_BYTES: usize = 65_536;

/// How many slots the locals and operands of all open calls of an instance may take.
pub const MAX_SLOTS: usize = 65_536;

/// How many handles a loop may have.
pub const MAX_HANDLES: usize = 64;

/// How many asyncs a loop may have.
pub const MAX_ASYNCS: usize = 16;

/// How many work requests of a loop may be open at a time. Each has a slot below this.
pub const MAX_REQUESTS: usize = 32;

/// The greatest number of a request of a loop.
pub const MAX_REQUEST_NUMBER: u32 = 2_147_483_647;

/// How many numbers a callback may emit.
pub const MAX_EMITS: usize = 64;

/// How many loops may share workers.
pub const MAX_LOOPS: u32 = 8;

/// How many workers loops may share.
pub const MAX_WORKERS: u32 = 16;

/// How many jobs may wait for a worker.
pub const MAX_JOBS: usize = 256;

/// How many replies may wait for their loop.
pub const MAX_REPLIES: usize = 64;

/// How many sends to asyncs one seat has.
pub const MAX_SENDS: u64 = 4_294_967_296;

/// How many seats may send to the asyncs of a loop.
pub const MAX_SEND_SEATS: usize = 64;

/// How many callbacks of a loop are run in threads before it ends as `limit`.
pub const MAX_CALLBACKS: u32 = 100_000;

/// How many modules a script may name.
pub const MAX_SCRIPT_MODULES: usize = 8;

/// How many steps a script may have.
pub const MAX_SCRIPT_STEPS: usize = 65_536;

/// How many bytes of a script are read.
pub const MAX_SCRIPT_BYTES: usize = 67_108_864;
