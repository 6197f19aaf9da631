// What helps against a rejection.

/// Compilers can leave out what is newer than WebAssembly 1.0.
pub const PLAIN: &str = "compile with -mcpu=mvp";

/// Compilers can leave it out, and a tool of the guest SDK rewrites it.
pub const LOWERED: &str =
    "compile with -mcpu=mvp, or rewrite it with `python3 -m wasmloop.lower IN OUT`";

/// Exceptions need none of it.
pub const NO_EXCEPTIONS: &str = "compile with -fno-exceptions, or panic=abort";

/// Threads of a guest need it alone.
pub const NO_THREADS: &str = "compile without -pthread, link without --shared-memory";

/// Addresses have 32 bits.
pub const NARROW: &str = "compile with --target=wasm32";

/// A `switch` without a table has neither so many blocks nor so many labels.
pub const NO_TABLES: &str = "compile with -fno-jump-tables";

/// Compiled without optimization, each value has a local of its own.
pub const OPTIMIZED: &str = "compile with -O1 or more";

/// Functions on integers can compute floats.
pub const SOFT: &str = "`python3 -m wasmloop.lower IN OUT` rewrites floating point";

/// The compiler's output for one file is not a module yet.
pub const LINKED: &str = "link it with wasm-ld";

/// An import that is not a function of the host is missing in the module.
pub const DEFINED: &str =
    "link a definition, for WASI examples/kit/wasi.c, or declare it as examples/uv.h does";

/// A build that failed leaves such a file.
pub const AGAIN: &str = "build it again";

/// A copy or a download that stopped leaves such a file.
pub const CUT: &str = "cut short? copy or build it again";
