// Why bytes are no guest, in a sentence.

ghost use Rattle.std.specs.Prelude.{◌≡◌, ◌⊎◌};
ghost use Rattle.syntax.specs.declared.contents.Contents.{Contents};
ghost use Rattle.loader.specs.Loading.{IsAccepted};
ghost use Rattle.wasmloop_c.specs.Calls.{ExplainsRefusal};

use crate::copying::copy_bytes;
use crate::status::{MEMORY, NONE, OK};
use loader::{Refusal, load};
use sentences::{text, try_explain};
use std::alloc::Global;

/// Copies the sentence on why bytes are no guest, as `check` prints it, as far as there is room.
#[unsafe(no_mangle)]
pub extern "C" fn wasmloop_rt_explain(
    alloc: Global,
    bytes: &[u8],
    into: &mut [u8],
    count: &mut u64,
) -> u32
    ensures known { (result ≡ OK) ⊎ (result ≡ NONE) ⊎ (result ≡ MEMORY) }
    ensures explains { result ≡ OK → ExplainsRefusal bytes.now into.old into.new count.new }
    ensures accepted { result ≡ NONE → (contents : Contents) × IsAccepted bytes.now contents }
    ensures untold { (result ≡ OK → ⊥) → (into.new ≡ into.old) × (count.new ≡ count.old) }
{
    let refusal = match load(alloc, bytes) {
        Ok(_) => return NONE,
        Err(Refusal::Memory) => return MEMORY,
        Err(refusal) => refusal,
    };
    let Ok(account) = try_explain(refusal, alloc, bytes) else {
        return MEMORY;
    };
    let Ok(text) = text(alloc, &account) else {
        return MEMORY;
    };
    copy_bytes(text.as_bytes(), into, count)
}
