//! The command line: `parse` reads its words as a `Command`, or reports a usage error.
//!
//! Nothing here runs anything. A number is decimal digits only, without sign or space, and `decimal` is exact. By their types, the
//! depth, the numbers of loops and workers, and the length of the input of a command are within their bounds. Begin with `command`.
#![tactic(auto)]

mod command;
mod grammar;
mod number;
mod parser;
mod refused;

pub use command::{Command, Invocation, ServeCommand, WorkInput, WorkOutput, WorkRequest};
pub use number::{decimal, small_decimal};
pub use parser::parse;
pub use refused::Refused;
