// An instance with the machine of its calls, in one room.

ghost use Rattle.std.specs.Prelude.{◌≡◌};
ghost use Rattle.resident.specs.Inner.Going.{called_function};

use imports::Linked;
use instance::state::State;
use interp::machine::Machine;
use interp::slices::Paused;
use std::alloc::Global;
use std::sync::Arc;

/// Where a call goes on.
#[derive(Clone, Copy)]
pub(crate) enum CallPlace {
    /// This import is asked, in a call with which so many calls may stand open.
    Import(u32, u32),
    /// In a function of the module.
    Inside(Paused),
}

impl CallPlace {
    /// The function that is called.
    pub(crate) fn function(&self) -> u32
        ensures { result ≡ called_function self.now }
    {
        match self {
            CallPlace::Import(function, _) => *function,
            CallPlace::Inside(paused) => paused.function(),
        }
    }
}

/// An instance, the machine on which its calls run, and where the last one in slices goes on that was not over at once. It stays where it is
/// from call to call and from slice to slice.
#[derive(Drop)]
pub(crate) struct InstanceRoom {
    pub linked: Arc<Linked, Global>,
    pub state: State,
    pub machine: Machine,
    pub place: CallPlace,
}
