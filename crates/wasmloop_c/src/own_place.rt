// Where something stopped, in words, by the bytes that its module keeps.

ghost use Rattle.std.specs.Prelude.{option_map};
ghost use Rattle.wasmloop_c.specs.Calls.{ReadsHandle};
ghost use Rattle.wasmloop_c.specs.Sites.{told_of};
ghost use Rattle.wasmloop_c.specs.Sentences.{Untold, TellsOwnPlace, TellsOwnPlaceOf};
ghost use Rattle.wasmloop_c.specs.Statuses.{OnlyRefused, status_in};

use crate::copying::copy_bytes;
use crate::handle::{Handle, on};
use crate::place::words;
use crate::status::{KIND, NONE, status_of};
use crate::stops::{Stopped, stopped};
use crate::thing::Thing;
use sentences::RefusedText;
use std::alloc::Global;

fn tell(
    alloc: Global,
    found: Option<Stopped<'_>>,
    into: &mut [u8],
    count: &mut u64,
) -> Result<u32, RefusedText>
    ensures tells { TellsOwnPlaceOf (option_map (λ s. (option_map told_of s.0, s.1.now)) found.entry) into.old into.new count.old count.new (status_in result) }
    ensures memory { OnlyRefused result }
{
    let Some((stop, own)) = found else {
        return Ok(KIND);
    };
    let Some(stop) = stop else {
        return Ok(NONE);
    };
    let text = words(alloc, own, &stop)?;
    Ok(copy_bytes(text.as_bytes(), into, count))
}

fn tell_thing(
    alloc: Global,
    thing: &Thing,
    into: &mut [u8],
    count: &mut u64,
) -> Result<u32, RefusedText>
    ensures tells { TellsOwnPlace thing.now into.old into.new count.old count.new (status_in result) }
    ensures memory { OnlyRefused result }
{
    tell(alloc, stopped(thing), into, count)
}

/// Tells in words where a loop's last callback stopped, or a job, or an instance's last call.
#[unsafe(no_mangle)]
pub extern "C" fn wasmloop_rt_stop_text(
    alloc: Global,
    handle: &mut Handle,
    into: &mut [u8],
    count: &mut u64,
) -> u32
    ensures { ReadsHandle handle.old.raw.value handle.new.raw.value result (Untold into.old into.new count.old count.new) (λ t. TellsOwnPlace t into.old into.new count.old count.new result) }
{
    on!(handle, alloc, held => status_of(tell_thing(alloc, &held, into, count)))
}
