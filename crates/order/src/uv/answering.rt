// What a guest is answered who reads its input or sets its reply.

ghost use Rattle.std.specs.Prelude.{◌≡◌, ◌≤◌, ℕ, Some, length, map, vec_capacity};
ghost use Rattle.limits.specs.declared.TheConstants.{MAX_BYTES};
ghost use Rattle.valid.specs.Typing.{type_of};
ghost use Rattle.reduction.specs.Hosting.{Answers};
ghost use Rattle.imports.specs.Uv.{type_of_call};
ghost use Rattle.order.specs.Uv.Bytes.{set_out};
ghost use Rattle.order.specs.Work.{WorkAnswers};

use crate::uv::answers::{INVALID, NOT_HERE, OUTSIDE_MEMORY};
use crate::uv::calls::{copy_in, three, two};
use imports::Call;
use instance::memory::Memory;
use interp::host::Args;
use limits::MAX_BYTES;
use syntax::types::Value;

/// Sets the reply to so many bytes of the memory, from a place on: 0, or -22 where they are too many, -14 where they are not all there. The
/// reply stays then.
#[inline]
fn set_out(reply: &mut Vec<u8>, place: u32, count: u32, memory: &mut Memory) -> u32
    requires { MAX_BYTES ≤ vec_capacity reply.old }
    ensures answer { result ≡ (set_out place count memory.old.bytes reply.old.items).0 }
    ensures reply { reply.new.items ≡ (set_out place count memory.old.bytes reply.old.items).1 }
    ensures room { MAX_BYTES ≤ vec_capacity reply.new }
    ensures memory { memory.new ≡ memory.old }
{
    if count as usize > MAX_BYTES {
        return INVALID;
    }
    let Some(bytes) = memory.read(place as usize, count as usize) else {
        return OUTSIDE_MEMORY;
    };
    reply.clear();
    let Ok(()) = reply.extend_from_slice(bytes) else {
        unreachable!();
    };
    0
}

/// What a call is answered where there are these bytes to read, and this reply. It takes no memory: the reply has room for all that may be set.
#[inline]
pub fn answered(
    call: Call,
    args: &Args,
    bytes: &[u8],
    reply: &mut Vec<u8>,
    memory: &mut Memory,
) -> Value
    requires typed { map type_of args.now ≡ (type_of_call call).params }
    requires few { length bytes.now ≤ MAX_BYTES }
    requires room { MAX_BYTES ≤ vec_capacity reply.old }
    ensures answers { (function : ℕ) → WorkAnswers bytes.now reply.old.items
        (record { function = function; args = args.now; before = memory.old.bytes; answer = Some result; after = memory.new.bytes }) reply.new.items call args.now }
    ensures typed { Answers (Some (type_of_call call)) (Some result) }
    ensures room { MAX_BYTES ≤ vec_capacity reply.new }
    ensures kept { length memory.new.bytes ≡ length memory.old.bytes }
    ensures limit { memory.new.limit ≡ memory.old.limit }
{
    match call {
        Call::Now => Value::I64(u64::MAX),
        Call::InLen => Value::I32(bytes.len() as u32),
        Call::InCopy => {
            let (to, from, count) = three(args);
            Value::I32(copy_in(bytes, to, from, count, memory))
        }
        Call::OutSet => {
            let (place, count) = two(args);
            Value::I32(set_out(reply, place, count, memory))
        }
        _ => Value::I32(NOT_HERE),
    }
}
