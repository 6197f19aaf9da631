// Jobs that no loop asks for.

ghost use Rattle.std.specs.Prelude.{◌≡◌, ◌≤◌, ◌⊎◌, ℕ, None, length, codes, IfOk, IsSomeAnd, MatchOption};
ghost use Rattle.std.specs.Arc.{arc_value};
ghost use Rattle.limits.specs.declared.TheConstants.{MAX_BYTES};
ghost use Rattle.imports.specs.Linking.{ExportsFunction};
ghost use Rattle.order.specs.Orders.{order_of};
ghost use Rattle.wasmloop_c.specs.Calls.{AnswersIn, AnswersWork, IsDepth, IsLoneJob, lone_order, module_of};

use crate::checked::is_depth;
use crate::handle::{Handle, on};
use crate::job::RunnableOrder;
use crate::status::{KIND, MEMORY, NO_WORK, OK, RANGE};
use crate::thing::{JobStage, Thing};
use imports::{EntryPoint, Linked};
use limits::MAX_BYTES;
use order::Order;
use std::alloc::{AllocError, Global};
use std::sync::Arc;

/// An operation of a module's `uv_work`, and what it may use.
#[repr(C)]
#[derive(Clone, Copy)]
pub struct Task {
    /// The fuel of the start function and `uv_work` together.
    pub fuel: u64,
    /// What `uv_work` is given.
    pub op: u32,
    /// How many calls may stand open, 1 to 128.
    pub depth: u32,
}

fn order_for(
    alloc: Global,
    linked: &Arc<Linked, Global>,
    task: Task,
    bytes: &[u8],
) -> Result<Order, AllocError>
    ensures { IfOk result (λ o. order_of o ≡ lone_order (arc_value linked.now) task bytes.now) }
{
    let copy = Vec::from_slice(alloc, bytes)?;
    Ok(Order {
        loop_no: 0,
        request: 0,
        slot: 0,
        module: Arc::try_clone(linked)?,
        op: task.op,
        bytes: Arc::new(alloc, copy)?,
        fuel: task.fuel,
        depth: task.depth,
    })
}

fn boxed(
    alloc: Global,
    linked: &Arc<Linked, Global>,
    task: Task,
    bytes: &[u8],
) -> Result<Box<Thing, Global>, AllocError>
    requires work { (f : ℕ) × ExportsFunction (arc_value linked.now).contents (codes "uv_work") f }
    requires bytes { length bytes.now ≤ MAX_BYTES }
    requires depth { IsDepth task.depth }
    ensures { IfOk result (λ b. IsLoneJob (arc_value linked.now) task bytes.now b.value) }
{
    let order = order_for(alloc, linked, task, bytes)?;
    let stage = Box::new(alloc, JobStage::Asked(RunnableOrder::new(order)))?;
    Ok(Box::new(alloc, Thing::Job(stage))?)
}

fn put_job(
    alloc: Global,
    linked: &Arc<Linked, Global>,
    task: Task,
    bytes: &[u8],
    job: &mut Handle,
) -> u32
    requires work { (f : ℕ) × ExportsFunction (arc_value linked.now).contents (codes "uv_work") f }
    requires bytes { length bytes.now ≤ MAX_BYTES }
    requires depth { IsDepth task.depth }
    requires empty { job.old.raw.value ≡ None }
    ensures makes { result ≡ OK → IsSomeAnd job.new.raw.value (IsLoneJob (arc_value linked.now) task bytes.now) }
    ensures refuses { (result ≡ OK → ⊥) → job.new.raw.value ≡ None }
    ensures known { (result ≡ OK) ⊎ (result ≡ MEMORY) }
{
    job.put_made(alloc, boxed(alloc, linked, task, bytes))
}

fn make(alloc: Global, module: &Thing, task: Task, bytes: &[u8], job: &mut Handle) -> u32
    requires bytes { length bytes.now ≤ MAX_BYTES }
    requires depth { IsDepth task.depth }
    requires empty { job.old.raw.value ≡ None }
    ensures makes { result ≡ OK → IsSomeAnd (module_of module.now) (λ m. IsSomeAnd job.new.raw.value (IsLoneJob m task bytes.now)) }
    ensures refuses { (result ≡ OK → ⊥) → job.new.raw.value ≡ None }
    ensures known { MatchOption (module_of module.now) (result ≡ KIND) (λ m. AnswersWork m.contents result) }
{
    let Thing::Module(linked) = module else {
        return KIND;
    };
    let Some(_) = linked.entry(EntryPoint::Work) else {
        return NO_WORK;
    };
    put_job(alloc, linked, task, bytes, job)
}

/// Makes a job of a module's `uv_work`, in an empty handle, that no loop waits for.
#[unsafe(no_mangle)]
pub extern "C" fn wasmloop_rt_job_new(
    alloc: Global,
    module: &mut Handle,
    task: &Task,
    bytes: &[u8],
    job: &mut Handle,
) -> u32
    ensures makes { result ≡ OK → IsSomeAnd module.old.raw.value (λ t. IsSomeAnd (module_of t) (λ m. IsSomeAnd job.new.raw.value (IsLoneJob m task.now bytes.now))) }
    ensures refuses { (result ≡ OK → ⊥) → job.new.raw.value ≡ job.old.raw.value }
    ensures kept { module.new.raw.value ≡ module.old.raw.value }
    ensures known { AnswersIn job.old.raw.value module.old.raw.value result (IsDepth task.now.depth × (length bytes.now ≤ MAX_BYTES)) (λ m. AnswersWork m.contents result) }
{
    if job.is_full() {
        return KIND;
    }
    if !is_depth(task.depth) || bytes.len() > MAX_BYTES {
        return RANGE;
    }
    on!(module, alloc, held => make(alloc, &held, *task, bytes, job))
}
