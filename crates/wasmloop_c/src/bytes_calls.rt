// Calls of an instance that are given bytes, and their replies.

ghost use Rattle.std.specs.Prelude.{◌≡◌, ◌≤◌, ◌<◌, ◌⊎◌, length, IfOk, IfErr};
ghost use Rattle.limits.specs.declared.TheConstants.{MAX_BYTES};
ghost use Rattle.events.specs.declared.ended.Ended.{Ended as HowEnded};
ghost use Rattle.reduction.specs.Invoking.{TakesArguments};
ghost use Rattle.wasmloop_c.specs.Calls.{IsDepth, ReadsHandle};
ghost use Rattle.wasmloop_c.specs.Instances.{OnStage};
ghost use Rattle.wasmloop_c.specs.BytesCalls.{CallIsJob, CallsBytes, CallsHeldBytes, CallsThingBytes, CallsWithBytes, ViewsLast};
ghost use Rattle.wasmloop_c.specs.Values.{call_numbers};

use crate::bytes_host::BytesHost;
use crate::checked::CheckedLimits;
use crate::ended::CallEnded;
use crate::handle::{Handle, on};
use crate::instances::{CallLimits, arguments};
use crate::status::{KIND, MEMORY, NONE, OK, RANGE};
use crate::thing::{InstanceStage, Thing};
use limits::MAX_BYTES;
use order::laws::imports_are_named;
use resident::Resident;
use std::alloc::{AllocError, Global};
use syntax::types::Value;

/// What a call is given: the number of an export, its arguments in numbers, the bytes that it may read, and what it may use.
#[derive(Clone, Copy)]
struct GivenBytes<'a> {
    number: u64,
    numbers: &'a [u64],
    bytes: &'a [u8],
    limits: CheckedLimits,
    ghost few: { length bytes.now ≤ MAX_BYTES },
}

/// Calls a function with these arguments, and writes how it ended and the reply. Where memory is refused, nothing is called.
fn call_function(
    alloc: Global,
    resident: &mut Resident,
    reply: &mut Vec<u8>,
    function: u32,
    args: &[Value],
    given: &GivenBytes<'_>,
    told: &mut CallEnded,
) -> Result<(), AllocError>
    requires { TakesArguments resident.old.loaded.contents function args.now }
    ensures called { IfOk result (λ _. (ended : HowEnded) × CallsWithBytes resident.old given.now.limits function args.now given.now.bytes.now ended resident.new reply.new.items
        × (told.new ≡ call_numbers ended)) }
    ensures same { IfErr result (λ _. (resident.new ≡ resident.old) × (told.new ≡ told.old) × (reply.new.items ≡ reply.old.items)) }
{
    let linked = resident.share_module()?;
    imports_are_named(&linked);
    let limits = given.limits;
    let mut host = BytesHost::new(alloc, linked, given.bytes, reply)?;
    let ended = resident.call_over(&mut host, function, args, limits.fuel(), limits.depth());
    *reply = host.into_reply();
    told.write(&ended);
    Ok(())
}

/// Calls the export of this number, where it is a function that takes these numbers.
#[tactic(auto, using(crate::proofs::ValuesRead::takes))]
fn call_on(
    alloc: Global,
    resident: &mut Resident,
    reply: &mut Vec<u8>,
    given: &GivenBytes<'_>,
    told: &mut CallEnded,
) -> u32
    ensures { CallsBytes resident.old given.now.number given.now.numbers.now given.now.bytes.now given.now.limits told.old told.new reply.old.items reply.new.items result resident.new }
{
    let Some((function, func_type)) = resident.function_at(given.number as usize) else {
        return NONE;
    };
    let args = match arguments(alloc, func_type.params.as_slice(), given.numbers) {
        Ok(args) => args,
        Err(status) => return status,
    };
    match call_function(
        alloc,
        resident,
        reply,
        function,
        args.as_slice(),
        given,
        told,
    ) {
        Ok(()) => OK,
        Err(AllocError) => MEMORY,
    }
}

fn call_stage(
    alloc: Global,
    stage: &mut InstanceStage,
    reply: &mut Vec<u8>,
    given: &GivenBytes<'_>,
    told: &mut CallEnded,
) -> u32
    ensures { OnStage stage.old stage.new result ((told.new ≡ told.old) × (reply.new.items ≡ reply.old.items))
        (λ a b. CallsBytes a given.now.number given.now.numbers.now given.now.bytes.now given.now.limits told.old told.new reply.old.items reply.new.items result b) }
{
    let InstanceStage::Resident(resident) = stage else {
        return KIND;
    };
    call_on(alloc, resident, reply, given, told)
}

fn call(alloc: Global, thing: &mut Thing, given: &GivenBytes<'_>, told: &mut CallEnded) -> u32
    ensures { CallsThingBytes thing.old thing.new given.now.number given.now.numbers.now given.now.bytes.now given.now.limits told.old told.new result }
{
    let Thing::Instance(stage, reply) = thing else {
        return KIND;
    };
    call_stage(alloc, stage, reply, given, told)
}

/// Calls the function that the export of this number is, with bytes that it may read, as a job may. What it sets is its reply.
#[unsafe(no_mangle)]
pub extern "C" fn wasmloop_rt_call_bytes(
    alloc: Global,
    handle: &mut Handle,
    number: u64,
    numbers: &[u64],
    bytes: &[u8],
    limits: &CallLimits,
    told: &mut CallEnded,
) -> u32
    ensures calls { IsDepth limits.now.depth → length bytes.now ≤ MAX_BYTES
        → CallsHeldBytes handle.old.raw.value handle.new.raw.value number numbers.now bytes.now limits.now told.old told.new result }
    ensures range { (¬ IsDepth limits.now.depth) ⊎ (MAX_BYTES < length bytes.now) → (result ≡ RANGE) × (handle.new ≡ handle.old) × (told.new ≡ told.old) }
{
    let Some(limits) = CheckedLimits::of(limits) else {
        return RANGE;
    };
    if bytes.len() > MAX_BYTES {
        return RANGE;
    }
    let given = GivenBytes {
        number,
        numbers,
        bytes,
        limits,
    };
    on!(handle, alloc, held => call(alloc, &mut held, &given, told))
}

fn view(thing: &Thing, at: &mut *const u8, count: &mut u64) -> u32
    ensures { ViewsLast thing.now at.old at.new count.old count.new result }
{
    let Thing::Instance(_, reply) = thing else {
        return KIND;
    };
    *at = reply.as_ptr();
    *count = reply.len() as u64;
    OK
}

/// Tells where the reply of an instance's last call with bytes is. It stays there until the next one, or until the instance is dropped.
#[unsafe(no_mangle)]
pub extern "C" fn wasmloop_rt_view(
    alloc: Global,
    handle: &mut Handle,
    at: &mut *const u8,
    count: &mut u64,
) -> u32
    ensures { ReadsHandle handle.old.raw.value handle.new.raw.value result ((at.new ≡ at.old) × (count.new ≡ count.old)) (λ t. ViewsLast t at.old at.new count.old count.new result) }
{
    on!(handle, alloc, held => view(&held, at, count))
}

/// On a new instance whose module has no start function, a call of `uv_work` with bytes is the job.
pub fn call_is_job()
    ensures { CallIsJob }
{}
