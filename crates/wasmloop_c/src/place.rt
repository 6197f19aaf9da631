// Where a loop's last callback stopped, or a job, or an instance's last call, in words.

ghost use Rattle.std.specs.Prelude.{option_map};
ghost use Rattle.wasmloop_c.specs.Calls.{ReadsHandle};
ghost use Rattle.wasmloop_c.specs.Sites.{told_of};
ghost use Rattle.wasmloop_c.specs.Sentences.{Untold, TellsPlace, TellsPlaceOf};
ghost use Rattle.wasmloop_c.specs.Statuses.{OnlyRefused, status_in};

use crate::copying::copy_bytes;
use crate::handle::{Handle, on};
use crate::status::{KIND, NONE, REFUSED, status_of};
use crate::stops::{StopPlace, Stopped, stopped};
use crate::thing::Thing;
use order::Trail;
use sentences::{Page, RefusedText, tell_place};
use std::alloc::Global;

fn written(alloc: Global, bytes: &[u8], trail: &Trail) -> Result<String, RefusedText> {
    let mut page = Page::new(alloc);
    // the page itself keeps that memory was refused
    let _ = tell_place(bytes, trail, "in ", &mut page);
    page.finish()
}

/// The words for a place in a module of these bytes, as `tell_stopped` has them.
pub fn words(alloc: Global, bytes: &[u8], stop: &StopPlace<'_>) -> Result<String, RefusedText> {
    match stop {
        StopPlace::Callback(stop) => written(alloc, bytes, &Trail::of(stop)),
        StopPlace::Job(trail) => written(alloc, bytes, trail),
    }
}

/// Tells the place in a module of its own bytes, if these are they.
fn tell(
    alloc: Global,
    found: Option<Stopped<'_>>,
    bytes: &[u8],
    into: &mut [u8],
    count: &mut u64,
) -> Result<u32, RefusedText>
    ensures tells { TellsPlaceOf (option_map (λ s. (option_map told_of s.0, s.1.now)) found.entry) bytes.now into.old into.new count.old count.new (status_in result) }
    ensures memory { OnlyRefused result }
{
    let Some((stop, own)) = found else {
        return Ok(KIND);
    };
    let Some(stop) = stop else {
        return Ok(NONE);
    };
    if own != bytes {
        return Ok(REFUSED);
    }
    let text = words(alloc, bytes, &stop)?;
    Ok(copy_bytes(text.as_bytes(), into, count))
}

fn tell_thing(
    alloc: Global,
    thing: &Thing,
    bytes: &[u8],
    into: &mut [u8],
    count: &mut u64,
) -> Result<u32, RefusedText>
    ensures tells { TellsPlace thing.now bytes.now into.old into.new count.old count.new (status_in result) }
    ensures memory { OnlyRefused result }
{
    tell(alloc, stopped(thing), bytes, into, count)
}

/// Tells in words where a loop's last callback stopped, or a job, or an instance's last call, of a module of these bytes.
#[unsafe(no_mangle)]
pub extern "C" fn wasmloop_rt_stop_told(
    alloc: Global,
    bytes: &[u8],
    handle: &mut Handle,
    into: &mut [u8],
    count: &mut u64,
) -> u32
    ensures { ReadsHandle handle.old.raw.value handle.new.raw.value result (Untold into.old into.new count.old count.new) (λ t. TellsPlace t bytes.now into.old into.new count.old count.new result) }
{
    on!(handle, alloc, held => status_of(tell_thing(alloc, &held, bytes, into, count)))
}
