// The memory of instances that are made one after another.

ghost use Rattle.std.specs.Prelude.{◌≡◌, None, IfOk};

use crate::stack::CallStack;
use crate::state::State;
use std::alloc::{AllocError, Global};

/// What an instance had of memory that is over: room for its memory's bytes, and its stack. The next one takes it, and nothing
/// anew where it suffices.
#[derive(Drop)]
pub struct Room {
    front: Option<Vec<u8>>,
    stack: Option<CallStack>,
}

impl Room {
    /// No room: the next instance takes all of its memory anew.
    pub const fn empty() -> Room {
        Room {
            front: None,
            stack: None,
        }
    }

    /// Keeps the memory of an instance that is over.
    pub fn keep(&mut self, state: State, stack: CallStack) {
        self.front = Some(state.into_front());
        self.stack = Some(stack);
    }

    /// The front of a memory that is over, or an empty one.
    pub(crate) fn take_front(&mut self, alloc: Global) -> Vec<u8> {
        self.front.take().unwrap_or(Vec::new(alloc))
    }

    /// A stack, as a new one.
    pub(crate) fn take_stack(&mut self, alloc: Global) -> Result<CallStack, AllocError>
        ensures { IfOk result (λ s. s ≡ None) }
    {
        match self.stack.take() {
            Some(stack) => Ok(stack.afresh()),
            None => CallStack::new(alloc),
        }
    }
}
