// What a module lacks to run on a loop, in sentences.

ghost use Rattle.wasmloop_c.specs.Calls.{ReadsHandle};
ghost use Rattle.wasmloop_c.specs.Sentences.{Untold, TellsWarning, TellsWarningOf};
ghost use Rattle.wasmloop_c.specs.Statuses.{OnlyRefused, status_in};

use crate::copying::copy_bytes;
use crate::handle::{Handle, on};
use crate::status::{KIND, NONE, status_of};
use crate::thing::Thing;
use imports::Linked;
use sentences::{RefusedText, text, warnings};
use std::alloc::Global;

fn tell_warning(
    alloc: Global,
    linked: &Linked,
    number: u32,
    into: &mut [u8],
    count: &mut u64,
) -> Result<u32, RefusedText>
    ensures tells { TellsWarningOf into.old into.new count.old count.new (status_in result) }
    ensures memory { OnlyRefused result }
{
    let found = warnings(linked);
    let Some(warning) = found.iter().flatten().nth(number as usize) else {
        return Ok(NONE);
    };
    let text = text(alloc, *warning)?;
    Ok(copy_bytes(text.as_bytes(), into, count))
}

fn warning(
    alloc: Global,
    thing: &Thing,
    number: u32,
    into: &mut [u8],
    count: &mut u64,
) -> Result<u32, RefusedText>
    ensures tells { TellsWarning thing.now into.old into.new count.old count.new (status_in result) }
    ensures memory { OnlyRefused result }
{
    let Thing::Module(linked) = thing else {
        return Ok(KIND);
    };
    tell_warning(alloc, linked, number, into, count)
}

/// Copies the sentence of this number on what a module lacks to run on a loop, as far as there is room.
#[unsafe(no_mangle)]
pub extern "C" fn wasmloop_rt_warning(
    alloc: Global,
    module: &mut Handle,
    number: u32,
    into: &mut [u8],
    count: &mut u64,
) -> u32
    ensures { ReadsHandle module.old.raw.value module.new.raw.value result (Untold into.old into.new count.old count.new) (λ t. TellsWarning t into.old into.new count.old count.new result) }
{
    on!(module, alloc, held => status_of(warning(alloc, &held, number, into, count)))
}
