// The host of a call of an instance that is given bytes.

ghost use Rattle.std.specs.Prelude.{◌≡◌, ◌≤◌, [], length, vec_capacity, IfOk, IfErr};
ghost use Rattle.std.specs.Arc.{arc_value};
ghost use Rattle.limits.specs.declared.TheConstants.{MAX_BYTES};

use imports::Linked;
use instance::memory::Memory;
use interp::host::{Args, Host};
use limits::MAX_BYTES;
use order::uv::answering::answered;
use order::uv::calls::called;
use std::alloc::{AllocError, Global};
use std::mem::replace;
use std::sync::Arc;
use syntax::types::Value;

/// The host of a call with bytes: it has the module, the bytes that there are to read, which are lent, and the bytes of the reply as they
/// were set last. It answers as the host of a work function.
#[derive(Drop)]
pub struct BytesHost<'a> {
    pub linked: Arc<Linked, Global>,
    pub bytes: &'a [u8],
    pub reply: Vec<u8>,
    pub ghost few: { length bytes.now ≤ MAX_BYTES },
    pub ghost room: { MAX_BYTES ≤ vec_capacity reply },
}

impl<'a> BytesHost<'a> {
    /// A host that has set no bytes, in the room of the last reply. An error comes, and that reply stays, where memory is refused.
    pub fn new(
        alloc: Global,
        linked: Arc<Linked, Global>,
        bytes: &'a [u8],
        last: &mut Vec<u8>,
    ) -> Result<BytesHost<'a>, AllocError>
        requires { length bytes.now ≤ MAX_BYTES }
        ensures linked { IfOk result (λ h. arc_value h.linked ≡ arc_value linked) }
        ensures bytes { IfOk result (λ h. h.bytes.now ≡ bytes.now) }
        ensures reply { IfOk result (λ h. h.reply.items ≡ []) }
        ensures same { IfErr result (λ _. last.new.items ≡ last.old.items) }
    {
        if last.capacity() < MAX_BYTES {
            last.reserve_exact(MAX_BYTES)?;
        }
        let mut reply = replace(last, Vec::new(alloc));
        reply.clear();
        Ok(BytesHost {
            linked,
            bytes,
            reply,
        })
    }

    /// The bytes of the reply.
    pub fn into_reply(self) -> Vec<u8>
        ensures { result.items ≡ self.entry.reply.items }
    {
        let BytesHost {
            linked: _,
            bytes: _,
            reply,
        } = self;
        reply
    }
}

impl Host for BytesHost<'_> {
    ghost use Rattle.wasmloop_c.specs.Inner.Answering.{types_answered, BytesAnswered};

    ghost types = { types_answered };

    ghost moves = { BytesAnswered };

    ghost copied = { λ _. 0 };

    fn copied(&self) -> u64 {
        0
    }

    fn call(&mut self, import: u32, args: &Args, memory: &mut Memory) -> Option<Value> {
        let call = called(&self.linked, import, args);
        let answer = answered(call, args, self.bytes, &mut self.reply, memory);
        Some(answer)
    }
}
