// The calls of a guest's imports, and their arguments.

ghost use Rattle.std.specs.Prelude.{◌≡◌, ◌≤◌, ◌+◌, [], ◌∷◌, Some, map, slice_get};
ghost use Rattle.limits.specs.declared.TheConstants.{MAX_BYTES};
ghost use Rattle.syntax.specs.declared.types.ValType.TheVariants as valtype;
ghost use Rattle.syntax.specs.declared.types.Value.TheVariants as value;
ghost use Rattle.valid.specs.Typing.{type_of};
ghost use Rattle.reduction.specs.Hosting.{TakesParams};
ghost use Rattle.imports.specs.Linking.{Imports};
ghost use Rattle.imports.specs.Uv.{type_of_call};
ghost use Rattle.instance.specs.Reads.{with_bytes};
ghost use Rattle.order.specs.Uv.Bytes.{bytes_named, copied_in};
ghost use Rattle.order.specs.ImportTypes.{import_types};

use crate::uv::answers::{INVALID, OUTSIDE_MEMORY};
use imports::{Call, Linked};
use instance::memory::Memory;
use interp::host::Args;
use limits::MAX_BYTES;
use syntax::types::Value;

/// The function of "uv" that a linked module imports under this number, which is called with these arguments.
#[inline(always)]
pub fn called(linked: &Linked, import: u32, args: &Args) -> Call
    requires { TakesParams (slice_get (import_types linked.now.contents) import) args.now }
    ensures imported { Imports linked.now.contents import result }
    ensures typed { map type_of args.now ≡ (type_of_call result).params }
    ensures answers { slice_get (import_types linked.now.contents) import ≡ Some (type_of_call result) }
{
    linked.imported(import)
}

/// The argument of a call that takes one i32.
#[inline(always)]
pub fn one(args: &Args) -> u32
    requires { map type_of args.now ≡ valtype.I32 ∷ [] }
    ensures { args.now ≡ value.I32 result ∷ [] }
{
    args.narrow(0)
}

/// The arguments of a call that takes two i32.
#[inline(always)]
pub fn two(args: &Args) -> (u32, u32)
    requires { map type_of args.now ≡ valtype.I32 ∷ valtype.I32 ∷ [] }
    ensures { args.now ≡ value.I32 result.0 ∷ value.I32 result.1 ∷ [] }
{
    (args.narrow(0), args.narrow(1))
}

/// The arguments of a call that takes three i32.
#[inline(always)]
pub fn three(args: &Args) -> (u32, u32, u32)
    requires { map type_of args.now ≡ valtype.I32 ∷ valtype.I32 ∷ valtype.I32 ∷ [] }
    ensures { args.now ≡ value.I32 result.0 ∷ value.I32 result.1 ∷ value.I32 result.2 ∷ [] }
{
    (args.narrow(0), args.narrow(1), args.narrow(2))
}

/// The argument of a call that takes one i64.
#[inline(always)]
pub fn one_wide(args: &Args) -> u64
    requires { map type_of args.now ≡ valtype.I64 ∷ [] }
    ensures { args.now ≡ value.I64 result ∷ [] }
{
    args.wide(0)
}

/// The arguments of a call that takes two i32 and then two i64.
#[inline(always)]
pub fn two_and_two_wide(args: &Args) -> (u32, u32, u64, u64)
    requires { map type_of args.now ≡ valtype.I32 ∷ valtype.I32 ∷ valtype.I64 ∷ valtype.I64 ∷ [] }
    ensures { args.now ≡ value.I32 result.0 ∷ value.I32 result.1 ∷ value.I64 result.2 ∷ value.I64 result.3 ∷ [] }
{
    (args.narrow(0), args.narrow(1), args.wide(2), args.wide(3))
}

/// Copies so many bytes of the input, from one place on, to a place of the guest's memory: 0, or -22 where they are not
/// all there, -14 where they don't fit the memory; nothing is copied then.
pub fn copy_in(input: &[u8], to: u32, from: u32, count: u32, memory: &mut Memory) -> u32
    ensures answer { result ≡ (copied_in (Some input.now) to from count memory.old.bytes).0 }
    ensures memory { memory.new ≡ with_bytes (copied_in (Some input.now) to from count memory.old.bytes).1 memory.old }
{
    let start = from as usize;
    let end = start + count as usize;
    if end > input.len() {
        return INVALID;
    }
    if to as usize + count as usize > memory.len() {
        return OUTSIDE_MEMORY;
    }
    memory.write(to as usize, &input[start..end]);
    0
}

/// How many bytes are copied after a call that answered so, where so many were before it. No call answers a negative number that copied any, and
/// none copies more than `MAX_BYTES`.
#[inline(always)]
pub fn counted(copied: u64, call: Call, args: &Args, answer: Value) -> u64
    requires { map type_of args.now ≡ (type_of_call call).params }
    ensures more { copied ≤ result }
    ensures most { result ≤ copied + bytes_named call args.now }
    ensures few { result ≤ copied + MAX_BYTES }
{
    let count = match call {
        Call::InCopy | Call::QueueWork => three(args).2,
        Call::OutSet => two(args).1,
        _ => return copied,
    };
    match answer {
        Value::I32(number) if number.cast_signed() >= 0 => {
            copied.saturating_add(u64::from(count).min(MAX_BYTES as u64))
        }
        _ => copied,
    }
}
