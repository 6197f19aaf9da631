// The host of a work function.

ghost use Rattle.std.specs.Prelude.{◌≡◌, ◌≤◌, [], IfOk, length, vec_capacity};
ghost use Rattle.std.specs.Arc.{arc_value};
ghost use Rattle.limits.specs.declared.TheConstants.{MAX_BYTES};

use crate::uv::answering::answered;
use crate::uv::calls::{called, counted};
use imports::Linked;
use instance::memory::Memory;
use interp::host::{Args, Host};
use limits::MAX_BYTES;
use std::alloc::{AllocError, Global};
use std::sync::Arc;
use syntax::types::Value;

/// The host of a work function: it has the module, the bytes that there are to read, the bytes of the reply as
/// they were set last, and how many bytes its calls have copied.
#[derive(Drop)]
pub struct WorkHost {
    pub linked: Arc<Linked, Global>,
    pub bytes: Arc<Vec<u8>, Global>,
    pub reply: Vec<u8>,
    pub copied: u64,
    pub ghost few: { length (arc_value bytes).items ≤ MAX_BYTES },
    pub ghost room: { MAX_BYTES ≤ vec_capacity reply },
}

impl WorkHost {
    /// A host that has set no bytes, with room for all that may be set.
    pub fn new(
        alloc: Global,
        linked: &Arc<Linked, Global>,
        bytes: &Arc<Vec<u8>, Global>,
    ) -> Result<WorkHost, AllocError>
        requires { length (arc_value bytes.now).items ≤ MAX_BYTES }
        ensures linked { IfOk result (λ h. arc_value h.linked ≡ arc_value linked.now) }
        ensures bytes { IfOk result (λ h. arc_value h.bytes ≡ arc_value bytes.now) }
        ensures reply { IfOk result (λ h. h.reply.items ≡ []) }
    {
        let reply = Vec::with_capacity(alloc, MAX_BYTES)?;
        Ok(WorkHost {
            linked: Arc::try_clone(linked)?,
            bytes: Arc::try_clone(bytes)?,
            reply,
            copied: 0,
        })
    }

    /// The bytes of the reply, in a block cut to them: a reply that kept room for all that may be set would hold the block
    /// that the next order asks for.
    pub fn into_reply(self) -> Vec<u8>
        ensures { result.items ≡ self.reply.items }
    {
        let WorkHost {
            linked: _,
            bytes: _,
            mut reply,
            copied: _,
        } = self;
        reply.shrink_to_fit();
        reply
    }
}

impl Host for WorkHost {
    ghost use Rattle.order.specs.Inner.WorkHosting.{types_of_host, WorkAnswered};

    ghost types = { types_of_host };

    ghost moves = { WorkAnswered };

    ghost copied = { λ h. h.copied };

    fn copied(&self) -> u64 {
        self.copied
    }

    fn call(&mut self, import: u32, args: &Args, memory: &mut Memory) -> Option<Value> {
        let call = called(&self.linked, import, args);
        let answer = answered(call, args, self.bytes.as_slice(), &mut self.reply, memory);
        self.copied = counted(self.copied, call, args, answer);
        Some(answer)
    }
}
