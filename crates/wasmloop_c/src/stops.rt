// Where a loop's last callback stopped, or a job, or an instance's last call; or where a job or a call stands between two slices.

ghost use Rattle.std.specs.Prelude.{◌≡◌, Option, slice_get, option_map};
ghost use Rattle.instance.specs.Stops.{Halt};
ghost use Rattle.order.specs.Slices.{OrderStandsAt};
ghost use Rattle.resident.specs.Slices.{CallStandsAt};
ghost use Rattle.wasmloop_c.specs.Calls.{ReadsHandle};
ghost use Rattle.wasmloop_c.specs.Sites.{told_of, whole_trail, IsStopOf, StopsAs, JobStopsAs, CallStopsAs};
ghost use Rattle.wasmloop_c.specs.Sites.{IsSiteOf, IsByteOf, CopiesSites, Uncopied, TellsStop, ReadsStop};

use crate::handle::{Handle, on};
use crate::status::{KIND, NONE, OK};
use crate::thing::{InstanceStage, JobStage, Thing, resting_in};
use desk::Desk;
use instance::stack::{Site as Operation, Stop};
use order::{Running, Told, Trail};
use phases::LoopCore;
use places::{Place, function_of, place_of_operation};
use resident::{Calling, Resident};
use std::alloc::Global;

/// An instruction of a function.
#[repr(C)]
#[derive(Clone, Copy)]
pub struct Site {
    /// The function's number among those that the module defines.
    pub function: u64,
    /// The instruction's number in its body, as the module's bytes spell it.
    pub operation: u64,
}

/// The same, and where it is in the module.
#[repr(C)]
#[derive(Clone, Copy)]
pub struct SpelledSite {
    /// The function's number. Imported functions are counted first.
    pub function: u64,
    /// The instruction's number in its body, as the module's bytes spell it.
    pub instruction: u64,
    /// The byte at which it begins.
    pub byte: u64,
}

/// Where a callback or a job stopped.
#[derive(Drop)]
pub enum StopPlace<'a> {
    Callback(Stop<'a>),
    Job(&'a Trail),
}

/// Where it stopped, unless it returned, and the bytes of its module.
pub type Stopped<'a> = (Option<StopPlace<'a>>, &'a [u8]);

impl<'a> StopPlace<'a> {
    /// The operation at which it stopped (0), the call around it (1), and so on outwards, as far as they are known.
    fn get(&self, index: usize) -> Option<Operation>
        ensures { result ≡ slice_get (told_of self.now).sites index }
    {
        match self {
            StopPlace::Callback(stop) => stop.get(index),
            StopPlace::Job(trail) => trail.get(index),
        }
    }

    /// How many calls were open.
    fn calls(&self) -> u64
        ensures { result ≡ (told_of self.now).calls }
    {
        match self {
            StopPlace::Callback(stop) => stop.len() as u64,
            StopPlace::Job(trail) => trail.calls() as u64,
        }
    }
}

/// The place of an operation as its module's bytes spell it.
fn place_of(bytes: &[u8], site: Operation) -> SpelledSite
    ensures { IsByteOf bytes.now site result }
{
    let function = function_of(bytes, site.function);
    match place_of_operation(bytes, site.function, site.operation) {
        Some(
            Place::Operation {
                function: _,
                number,
                name: _,
                at,
            },
        ) => SpelledSite {
            function,
            instruction: number as u64,
            byte: at as u64,
        },
        _ => SpelledSite {
            function,
            instruction: site.operation as u64,
            byte: 0,
        },
    }
}

fn site_of(bytes: &[u8], site: Operation) -> Site
    ensures { IsSiteOf bytes.now site result }
{
    Site {
        function: site.function as u64,
        operation: place_of(bytes, site).instruction,
    }
}

/// Copies the sites as far as there is room.
fn copy_sites(stop: &StopPlace<'_>, bytes: &[u8], into: &mut [Site])
    ensures { CopiesSites (IsSiteOf bytes.now) (told_of stop.now).sites into.old into.new }
{
    for index in 0..into.len() {
        let Some(site) = stop.get(index) else {
            return;
        };
        into[index] = site_of(bytes, site);
    }
}

/// Copies the places as far as there is room.
fn copy_places(stop: &StopPlace<'_>, bytes: &[u8], into: &mut [SpelledSite])
    ensures { CopiesSites (IsByteOf bytes.now) (told_of stop.now).sites into.old into.new }
{
    for index in 0..into.len() {
        let Some(site) = stop.get(index) else {
            return;
        };
        into[index] = place_of(bytes, site);
    }
}

fn stop_of_loop(core: &LoopCore<Desk>) -> Option<StopPlace<'_>>
    ensures { IsStopOf core.now.setting core.now.loop.state.status core.now.loop.store (option_map told_of result) }
{
    Some(StopPlace::Callback(core.last_stop()?))
}

fn stop_of_job(told: &Told) -> Option<StopPlace<'_>>
    ensures { option_map told_of result ≡ told.now.trail }
{
    match &told.trail {
        Some(trail) => Some(StopPlace::Job(trail)),
        None => None,
    }
}

fn stop_of_instance(resident: &Resident) -> Option<StopPlace<'_>>
    ensures { option_map told_of result ≡ option_map whole_trail resident.now.stop }
{
    Some(StopPlace::Callback(resident.last_stop()?))
}

fn stop_of_running(running: &Running) -> Option<StopPlace<'_>>
    ensures { (stop : Option Halt) × OrderStandsAt running.now stop × (option_map told_of result ≡ option_map whole_trail stop) }
{
    Some(StopPlace::Callback(running.stop()?))
}

fn stop_of_calling(calling: &Calling) -> Option<StopPlace<'_>>
    ensures { (stop : Option Halt) × CallStandsAt calling.now stop × (option_map told_of result ≡ option_map whole_trail stop) }
{
    Some(StopPlace::Callback(calling.stop()?))
}

fn job_stopped(stage: &JobStage) -> Option<Stopped<'_>>
    ensures { JobStopsAs stage.now (option_map (λ s. (option_map told_of s.0, s.1.now)) result) }
{
    match stage {
        JobStage::Asked(job) => { Some((None, job.order().module.valid().module().bytes())) }
        JobStage::Running(running) => Some((stop_of_running(running), running.module_bytes())),
        JobStage::Answered(told) => {
            let bytes = told.reply.order.module.valid().module().bytes();
            Some((stop_of_job(told), bytes))
        }
        JobStage::Gone => None,
    }
}

fn call_stopped(stage: &InstanceStage) -> Option<Stopped<'_>>
    ensures { CallStopsAs stage.now (option_map (λ s. (option_map told_of s.0, s.1.now)) result) }
{
    match stage {
        InstanceStage::Resident(resident) => {
            Some((stop_of_instance(resident), resident.module_bytes()))
        }
        InstanceStage::Calling(calling) => Some((stop_of_calling(calling), calling.module_bytes())),
        InstanceStage::Gone => None,
    }
}

/// Where the last callback of a loop stopped, or a job, or the last call of an instance, and its module's bytes. A job or a call between two slices
/// stands where it would have stopped with just so much fuel as it has used.
pub fn stopped(thing: &Thing) -> Option<Stopped<'_>>
    ensures { StopsAs thing.now (option_map (λ s. (option_map told_of s.0, s.1.now)) result) }
{
    match thing {
        Thing::Loop(_, _) => {
            let core = resting_in(thing)?;
            Some((stop_of_loop(core), core.module_bytes()))
        }
        Thing::Job(stage) => job_stopped(stage),
        Thing::Instance(stage, _) => call_stopped(stage),
        _ => None,
    }
}

fn tell_sites(found: Option<Stopped<'_>>, into: &mut [Site], count: &mut u64) -> u32
    ensures { TellsStop IsSiteOf (option_map (λ s. (option_map told_of s.0, s.1.now)) found.entry) into.old into.new count.old count.new result }
{
    let Some((stop, bytes)) = found else {
        return KIND;
    };
    let Some(stop) = stop else {
        return NONE;
    };
    copy_sites(&stop, bytes, into);
    *count = stop.calls();
    OK
}

fn tell_places(found: Option<Stopped<'_>>, into: &mut [SpelledSite], count: &mut u64) -> u32
    ensures { TellsStop IsByteOf (option_map (λ s. (option_map told_of s.0, s.1.now)) found.entry) into.old into.new count.old count.new result }
{
    let Some((stop, bytes)) = found else {
        return KIND;
    };
    let Some(stop) = stop else {
        return NONE;
    };
    copy_places(&stop, bytes, into);
    *count = stop.calls();
    OK
}

fn read_sites(thing: &Thing, into: &mut [Site], count: &mut u64) -> u32
    ensures { ReadsStop IsSiteOf thing.now into.old into.new count.old count.new result }
{
    tell_sites(stopped(thing), into, count)
}

fn read_places(thing: &Thing, into: &mut [SpelledSite], count: &mut u64) -> u32
    ensures { ReadsStop IsByteOf thing.now into.old into.new count.old count.new result }
{
    tell_places(stopped(thing), into, count)
}

/// Copies the backtrace, as far as there is room and the calls are known: of a job that is over the first `MAX_TRAIL`. The count is how many
/// calls were open.
#[unsafe(no_mangle)]
pub extern "C" fn wasmloop_rt_stop(
    alloc: Global,
    handle: &mut Handle,
    into: &mut [Site],
    count: &mut u64,
) -> u32
    ensures { ReadsHandle handle.old.raw.value handle.new.raw.value result (Uncopied into.old into.new count.old count.new) (λ t. ReadsStop IsSiteOf t into.old into.new count.old count.new result) }
{
    on!(handle, alloc, held => read_sites(&held, into, count))
}

/// Copies the same backtrace with the byte of each instruction.
#[unsafe(no_mangle)]
pub extern "C" fn wasmloop_rt_stop_places(
    alloc: Global,
    handle: &mut Handle,
    into: &mut [SpelledSite],
    count: &mut u64,
) -> u32
    ensures { ReadsHandle handle.old.raw.value handle.new.raw.value result (Uncopied into.old into.new count.old count.new) (λ t. ReadsStop IsByteOf t into.old into.new count.old count.new result) }
{
    on!(handle, alloc, held => read_places(&held, into, count))
}
