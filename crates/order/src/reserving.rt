// The memory of an order's run, which is reserved before it.

ghost use Rattle.std.specs.Prelude.{◌≡◌, ◌≤◌, [], None, vec_capacity, IfOk};
ghost use Rattle.std.specs.Arc.{arc_value};
ghost use Rattle.limits.specs.declared.TheConstants.{MAX_BYTES};
ghost use Rattle.instance.specs.Stops.{stop_of};
ghost use Rattle.interp.specs.Machines.{MachineFits};
ghost use Rattle.order.specs.Inner.Ready.{IsReadyToRun};

use imports::Linked;
use instance::fault::InstFault;
use instance::room::Room;
use instance::state::{Instance, State};
use interp::machine::Machine;
use limits::MAX_BYTES;
use std::alloc::{AllocError, Global};
use std::sync::Arc;
use valid::Valid;

/// Memory was refused. One is made in this module alone, where an allocation was, by functions that see neither the operation nor what is
/// in the input: so there is no memory for an order only where it was refused.
#[derive(Drop)]
pub struct RefusedMemory {
    by: AllocError,
}

/// All memory that a run of an order takes: a new instance of its module, room for the bytes of its reply, and a share of the module
/// and of the input each.
pub(crate) struct Reserved<T> {
    pub(crate) instance: Instance,
    pub(crate) linked: Arc<Linked, Global>,
    pub(crate) input: Arc<T, Global>,
    pub(crate) reply: Vec<u8>,
    pub ghost empty: { reply.items ≡ [] },
    pub ghost room: { MAX_BYTES ≤ vec_capacity reply },
}

/// The same for a run in slices: the state of the instance, and a machine for its calls.
pub(crate) struct ReservedParts<T> {
    pub(crate) state: State,
    pub(crate) machine: Machine,
    pub(crate) linked: Arc<Linked, Global>,
    pub(crate) input: Arc<T, Global>,
    pub(crate) reply: Vec<u8>,
    pub ghost empty: { reply.items ≡ [] },
    pub ghost room: { MAX_BYTES ≤ vec_capacity reply },
}

/// A new instance of a module, in the room that another one had.
fn instance_of(alloc: Global, linked: &Linked, room: &mut Room) -> Result<Instance, AllocError>
    ensures { IfOk result (λ i. IsReadyToRun linked.now.contents i.state) }
{
    let valid = linked.valid();
    // by its contract the module is valid
    let _contents = valid.contents();
    match Instance::new_in(alloc, valid, room) {
        Ok(instance) => Ok(instance),
        Err(InstFault::Memory) => Err(AllocError),
        Err(_) => unreachable!(),
    }
}

fn all<T: Drop>(
    alloc: Global,
    linked: &Arc<Linked, Global>,
    input: &Arc<T, Global>,
    room: &mut Room,
) -> Result<Reserved<T>, AllocError>
    ensures ready { IfOk result (λ r. IsReadyToRun (arc_value linked.now).contents r.instance.state) }
    ensures linked { IfOk result (λ r. arc_value r.linked ≡ arc_value linked.now) }
    ensures input { IfOk result (λ r. arc_value r.input ≡ arc_value input.now) }
{
    Ok(Reserved {
        instance: instance_of(alloc, linked, room)?,
        linked: Arc::try_clone(linked)?,
        input: Arc::try_clone(input)?,
        reply: Vec::with_capacity(alloc, MAX_BYTES)?,
    })
}

fn all_parts<T: Drop>(
    alloc: Global,
    linked: &Arc<Linked, Global>,
    input: &Arc<T, Global>,
) -> Result<ReservedParts<T>, AllocError>
    ensures ready { IfOk result (λ r. IsReadyToRun (arc_value linked.now).contents r.state) }
    ensures fits { IfOk result (λ r. MachineFits (arc_value linked.now).contents r.machine) }
    ensures linked { IfOk result (λ r. arc_value r.linked ≡ arc_value linked.now) }
    ensures input { IfOk result (λ r. arc_value r.input ≡ arc_value input.now) }
{
    let (state, stack) = instance_of(alloc, linked, &mut Room::empty())?.into_parts();
    let machine = Machine::of(linked.valid(), stack)?;
    Ok(ReservedParts {
        state,
        machine,
        linked: Arc::try_clone(linked)?,
        input: Arc::try_clone(input)?,
        reply: Vec::with_capacity(alloc, MAX_BYTES)?,
    })
}

/// Reserves what a run of a module takes.
pub(crate) fn reserve<T: Drop>(
    alloc: Global,
    linked: &Arc<Linked, Global>,
    input: &Arc<T, Global>,
    room: &mut Room,
) -> Result<Reserved<T>, RefusedMemory>
    ensures ready { IfOk result (λ r. IsReadyToRun (arc_value linked.now).contents r.instance.state) }
    ensures linked { IfOk result (λ r. arc_value r.linked ≡ arc_value linked.now) }
    ensures input { IfOk result (λ r. arc_value r.input ≡ arc_value input.now) }
{
    match all(alloc, linked, input, room) {
        Ok(reserved) => Ok(reserved),
        Err(by) => Err(RefusedMemory { by }),
    }
}

/// Reserves what a run in slices takes.
pub(crate) fn reserve_parts<T: Drop>(
    alloc: Global,
    linked: &Arc<Linked, Global>,
    input: &Arc<T, Global>,
) -> Result<ReservedParts<T>, RefusedMemory>
    ensures ready { IfOk result (λ r. IsReadyToRun (arc_value linked.now).contents r.state) }
    ensures fits { IfOk result (λ r. MachineFits (arc_value linked.now).contents r.machine) }
    ensures linked { IfOk result (λ r. arc_value r.linked ≡ arc_value linked.now) }
    ensures input { IfOk result (λ r. arc_value r.input ≡ arc_value input.now) }
{
    match all_parts(alloc, linked, input) {
        Ok(reserved) => Ok(reserved),
        Err(by) => Err(RefusedMemory { by }),
    }
}

/// Reserves what calls in slices run on, besides the state and the host of their instance.
pub fn reserve_machine(alloc: Global, valid: &Valid) -> Result<Machine, RefusedMemory>
    ensures fits { IfOk result (λ m. MachineFits valid.now.contents m) }
    ensures stop { IfOk result (λ m. stop_of m.last m.frames.items ≡ None) }
{
    match Machine::new(alloc, valid) {
        Ok(machine) => Ok(machine),
        Err(by) => Err(RefusedMemory { by }),
    }
}
