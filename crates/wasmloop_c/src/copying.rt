// What is copied to C as far as there is room.

ghost use Rattle.std.specs.Prelude.{◌≡◌};
ghost use Rattle.wasmloop_c.specs.Calls.{copied, Copies};

use crate::status::OK;

/// Copies the front as far as there is room.
pub fn copy_front<T: Copy>(from: &[T], into: &mut [T])
    ensures { into.new ≡ copied from.now into.old }
{
    let count = from.len().min(into.len());
    into[..count].copy_from_slice(&from[..count]);
}

/// Copies bytes as far as there is room, and returns how many there are.
pub fn copy_bytes(bytes: &[u8], into: &mut [u8], count: &mut u64) -> u32
    ensures { Copies bytes.now into.old into.new count.new result }
{
    copy_front(bytes, into);
    *count = bytes.len() as u64;
    OK
}
