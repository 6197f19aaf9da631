// From bytes to a guest.

ghost use Rattle.std.specs.Prelude.{◌≡◌, IfOk, IfErr};
ghost use Rattle.loader.specs.Loading.{IsAccepted, IsRefused};
ghost use Rattle.syntax.specs.Binary.{Spells};
ghost use Rattle.valid.specs.Valid.{ValidModule};

use crate::refusal::Refusal;
use decode::{DecodeFault, decode};
use imports::{Linked, link};
use std::alloc::Global;
use syntax::module::Module;
use valid::Valid;
use validate::{ValidFault, validate};

/// The module that the bytes spell.
pub fn decoded(alloc: Global, bytes: &[u8]) -> Result<Module, Refusal>
    ensures same { IfOk result (λ m. m.bytes ≡ bytes.now) }
    ensures spelled { IfOk result (λ m. Spells bytes.now m.contents) }
    ensures refused { IfErr result (IsRefused bytes.now) }
{
    let Ok(copy) = Vec::from_slice(alloc, bytes) else {
        return Err(Refusal::Memory);
    };
    match decode(alloc, copy) {
        Ok(module) => Ok(module),
        Err(DecodeFault::Memory) => Err(Refusal::Memory),
        Err(fault) => Err(Refusal::Decode(fault)),
    }
}

/// The valid module that the bytes spell.
pub fn validated(alloc: Global, bytes: &[u8]) -> Result<Valid, Refusal>
    ensures same { IfOk result (λ v. v.bytes ≡ bytes.now) }
    ensures spelled { IfOk result (λ v. Spells bytes.now v.contents) }
    ensures valid { IfOk result (λ v. ValidModule v.contents) }
    ensures refused { IfErr result (IsRefused bytes.now) }
{
    let module = decoded(alloc, bytes)?;
    match validate(alloc, module) {
        Ok(valid) => Ok(valid),
        Err(ValidFault::Memory) => Err(Refusal::Memory),
        Err(fault) => Err(Refusal::Validate(fault)),
    }
}

/// The module that the bytes spell, validated and linked.
///
/// They are refused by `Decode` where they spell no module within the limits, by `Validate` where that is not valid, by
/// `Link` where it doesn't fit the host, each with its fault; and by `Memory` where there is not enough memory to find out.
pub fn load(alloc: Global, bytes: &[u8]) -> Result<Linked, Refusal>
    ensures same { IfOk result (λ guest. guest.bytes ≡ bytes.now) }
    ensures accepted { IfOk result (λ guest. IsAccepted guest.bytes guest.contents) }
    ensures refused { IfErr result (IsRefused bytes.now) }
{
    let valid = validated(alloc, bytes)?;
    match link(valid) {
        Ok(linked) => Ok(linked),
        Err(fault) => Err(Refusal::Link(fault)),
    }
}
