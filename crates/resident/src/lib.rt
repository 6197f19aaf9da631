//! An instance of a module that is kept from call to call.
//!
//! `Resident::new` makes one, `start` runs the module's start function, and `call` calls a function, again and again: each call finds the
//! globals, the table and the memory as the one before left them, however that ended. `function` finds a function by the name that it is
//! exported under; `read` and `write` copy bytes of the memory. Every import answers -1, in the type of its result.
//!
//! `begin` makes a call a `Calling`, which holds the instance, and `go_on` goes on with it for so many units of fuel.
//!
//! Begin with `specs/Calls.antt`: a call's ending, results, fuel and store are those of a run of the reduction rules from the store as it stood. So are those of a
//! call in slices, however it is cut (`specs/Slices.antt`).
#![tactic(auto)]

mod calling;
mod exported;
mod kept;
mod no_host;
mod resident;

pub use calling::{BareGoing, Calling, Going};
pub use exported::{export_number, exported_function, exported_global};
pub use no_host::NoHost;
pub use resident::Resident;
