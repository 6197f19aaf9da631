// Modules, and what ends a handle.

ghost use Rattle.std.specs.Prelude.{◌≡◌, ◌↔◌, ◌⊎◌, Some, None, IfOk, IsNone, IsSome, IsSomeAnd};
ghost use Rattle.std.specs.Arc.{arc_value};
ghost use Rattle.loader.specs.Loading.{IsAccepted};
ghost use Rattle.wasmloop_c.specs.Calls.{AnswersIn, Loads, RefusesBytes, module_of};

use crate::fault::Fault;
use crate::handle::{Handle, on};
use crate::status::{EMPTY, KIND, MEMORY, OK, REFUSED};
use crate::thing::Thing;
use imports::Linked;
use loader::{Refusal, load};
use std::alloc::{AllocError, Global};
use std::sync::Arc;

/// A module of what was loaded.
pub fn boxed(alloc: Global, linked: Linked) -> Result<Box<Thing, Global>, AllocError>
    requires { IsAccepted linked.bytes linked.contents }
    ensures { IfOk result (λ b. Loads linked.bytes b.value) }
{
    let shared = Arc::new(alloc, linked)?;
    Ok(Box::new(alloc, Thing::Module(shared))?)
}

/// Makes a module of the bytes that spell it, in an empty handle.
///
/// `OK`: the module is of these very bytes, which are a valid module that fits the host. `REFUSED`: they are none, and the fault
/// says why and where. `MEMORY`: there is not enough to find out. `KIND`: the handle is not empty.
#[unsafe(no_mangle)]
pub extern "C" fn wasmloop_rt_load(
    alloc: Global,
    bytes: &[u8],
    module: &mut Handle,
    fault: &mut Fault,
) -> u32
    ensures loads { result ≡ OK → IsSomeAnd module.new.raw.value (Loads bytes.now) }
    ensures refuses { result ≡ REFUSED → RefusesBytes bytes.now fault.new }
    ensures full { (result ≡ KIND) ↔ IsSome module.old.raw.value }
    ensures known { (result ≡ OK) ⊎ (result ≡ REFUSED) ⊎ (result ≡ KIND) ⊎ (result ≡ MEMORY) }
    ensures kept { (result ≡ OK → ⊥) → module.new.raw.value ≡ module.old.raw.value }
    ensures fault { (result ≡ REFUSED → ⊥) → fault.new ≡ fault.old }
{
    if module.is_full() {
        return KIND;
    }
    match load(alloc, bytes) {
        Ok(linked) => module.put_made(alloc, boxed(alloc, linked)),
        Err(Refusal::Memory) => MEMORY,
        Err(refusal) => {
            let Ok(found) = Fault::new(alloc, refusal, bytes) else {
                return MEMORY;
            };
            *fault = found;
            REFUSED
        }
    }
}

fn doubled(alloc: Global, linked: &Arc<Linked, Global>) -> Result<Box<Thing, Global>, AllocError>
    ensures { IfOk result (λ b. module_of b.value ≡ Some (arc_value linked.now)) }
{
    let shared = Arc::try_clone(linked)?;
    Ok(Box::new(alloc, Thing::Module(shared))?)
}

fn share(alloc: Global, module: &Thing, other: &mut Handle) -> u32
    requires { other.old.raw.value ≡ None }
    ensures shares { result ≡ OK → IsSomeAnd (module_of module.now) (λ m. IsSomeAnd other.new.raw.value (λ t. module_of t ≡ Some m)) }
    ensures kind { (result ≡ KIND) ↔ (module_of module.now ≡ None) }
    ensures known { (result ≡ OK) ⊎ (result ≡ KIND) ⊎ (result ≡ MEMORY) }
    ensures refuses { (result ≡ OK → ⊥) → other.new.raw.value ≡ None }
{
    let Thing::Module(linked) = module else {
        return KIND;
    };
    other.put_made(alloc, doubled(alloc, linked))
}

/// Makes a second handle of the same module, in an empty one.
#[unsafe(no_mangle)]
pub extern "C" fn wasmloop_rt_share(alloc: Global, module: &mut Handle, other: &mut Handle) -> u32
    ensures shares { result ≡ OK → IsSomeAnd module.old.raw.value (λ t. IsSomeAnd (module_of t) (λ m. IsSomeAnd other.new.raw.value (λ u. module_of u ≡ Some m))) }
    ensures refuses { (result ≡ OK → ⊥) → other.new.raw.value ≡ other.old.raw.value }
    ensures kept { module.new.raw.value ≡ module.old.raw.value }
    ensures known { AnswersIn other.old.raw.value module.old.raw.value result (Unit {0}) (λ _. (result ≡ OK) ⊎ (result ≡ MEMORY)) }
{
    if other.is_full() {
        return KIND;
    }
    on!(module, alloc, held => share(alloc, &held, other))
}

/// Drops what a handle has, and leaves it empty.
#[unsafe(no_mangle)]
pub extern "C" fn wasmloop_rt_drop(alloc: Global, handle: &mut Handle) -> u32
    ensures none { handle.new.raw.value ≡ None }
    ensures empty { IsNone handle.old.raw.value → result ≡ EMPTY }
    ensures dropped { (IsNone handle.old.raw.value → ⊥) → result ≡ OK }
{
    match handle.take(alloc) {
        Some(_) => OK,
        None => EMPTY,
    }
}
