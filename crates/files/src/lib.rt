//! Files by name: `Reader` reads them, `FileWriter` writes them, `SystemFiles` does both, and `IoFault` says what failed.
//!
//! A reader's ghost member `gives` says what a file holds, and a writer's `takes` what becomes of a written one. For the system's
//! files they say nothing.
#![tactic(auto)]

mod fault;
mod file;

pub use fault::IoFault;
pub use file::{FileWriter, Reader, SystemFiles};
