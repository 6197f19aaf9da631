//! What is reported of runs and loops: how a run ended, by which trap, with which values; the phases of a loop, what one of its steps
//! did, and how long it has nothing to do; what its runs may spend.
//!
//! The crates `interp` and `phases` make these, and hand them on under their own names. A log of them can be written and read
//! with no loop below it.
#![tactic(auto)]

pub mod did;
pub mod ended;
pub mod phase;
pub mod settings;
pub mod trap;
pub mod values;
