// A module, or why its bytes spell none, in numbers and in a sentence.

ghost use Rattle.std.specs.Prelude.{◌≡◌, ◌↔◌, ◌⊎◌, IsSome, IsSomeAnd};
ghost use Rattle.wasmloop_c.specs.Calls.{Loads, RefusesBytes};
ghost use Rattle.wasmloop_c.specs.Sentences.{CopiesWords, Untold};

use crate::copying::copy_bytes;
use crate::fault::Fault;
use crate::handle::Handle;
use crate::modules::boxed;
use crate::status::{KIND, MEMORY, OK, REFUSED};
use loader::{Refusal, load};
use std::alloc::Global;

/// Makes a module of bytes as `wasmloop_rt_load` does. Where they are refused, it also copies the sentence on why, as far as there is room.
#[unsafe(no_mangle)]
pub extern "C" fn wasmloop_rt_load_told(
    alloc: Global,
    bytes: &[u8],
    module: &mut Handle,
    fault: &mut Fault,
    into: &mut [u8],
    count: &mut u64,
) -> u32
    ensures loads { result ≡ OK → IsSomeAnd module.new.raw.value (Loads bytes.now) }
    ensures refuses { result ≡ REFUSED → RefusesBytes bytes.now fault.new }
    ensures told { result ≡ REFUSED → CopiesWords into.old into.new count.new }
    ensures full { (result ≡ KIND) ↔ IsSome module.old.raw.value }
    ensures known { (result ≡ OK) ⊎ (result ≡ REFUSED) ⊎ (result ≡ KIND) ⊎ (result ≡ MEMORY) }
    ensures kept { (result ≡ OK → ⊥) → module.new.raw.value ≡ module.old.raw.value }
    ensures fault { (result ≡ REFUSED → ⊥) → fault.new ≡ fault.old }
    ensures untold { (result ≡ REFUSED → ⊥) → Untold into.old into.new count.old count.new }
{
    if module.is_full() {
        return KIND;
    }
    match load(alloc, bytes) {
        Ok(linked) => module.put_made(alloc, boxed(alloc, linked)),
        Err(Refusal::Memory) => MEMORY,
        Err(refusal) => {
            let Ok((found, text)) = Fault::told(alloc, refusal, bytes) else {
                return MEMORY;
            };
            *fault = found;
            copy_bytes(text.as_bytes(), into, count);
            REFUSED
        }
    }
}
