// An order in slices.

ghost use Rattle.std.specs.Prelude.{◌≡◌, ◌≢◌, ◌+◌, ◌-◌, ◌<◌, ◌≤◌, ℕ, [], ◌∷◌, Some, length, codes, IfOk, IfErr};
ghost use Rattle.std.specs.Arc.{arc_value};
ghost use Rattle.limits.specs.declared.TheConstants.{MAX_BYTES, MAX_DEPTH};
ghost use Rattle.syntax.specs.declared.types.ValType.TheVariants as valtype;
ghost use Rattle.valid.specs.Valid.{ValidModule};
ghost use Rattle.instance.specs.Storing.{IsStoreOf};
ghost use Rattle.instance.specs.Stops.{stop_of};
ghost use Rattle.reduction.specs.Running.{end_of_run, AreResults};
ghost use Rattle.valid.specs.Typing.{type_of_function};
ghost use Rattle.imports.specs.Linking.{ExportsFunction};
ghost use Rattle.imports.specs.Uv.{type_of_entry};
ghost use Rattle.imports.specs.declared.entry_point.EntryPoint.TheVariants.{Work};
ghost use Rattle.interp.specs.Lent.{ending_with};
ghost use Rattle.interp.specs.Machines.{MachineFits};
ghost use Rattle.order.specs.Orders.{order_of, end_of};
ghost use Rattle.order.specs.Work.{WorkEnd, NoMemory, EndsAs, Computes, Uses};
ghost use Rattle.order.specs.Stopping.{ComputesTo, LeavesTrail};
ghost use Rattle.order.specs.Runnable.{CanRun};
ghost use Rattle.order.specs.Slices.{OrderGoesOn, OrderStandsAt, unbegun};
ghost use Rattle.order.specs.Inner.Ready.{IsReadyToRun};
ghost use Rattle.order.specs.Inner.Serving.{Serves};
ghost use Rattle.order.specs.Inner.Going.{RunsOrder, IsUnbegun, IsStarting, StartIsOver, IsWorking, used_in_stage};

use crate::host::WorkHost;
use crate::machine::WorkMachine;
use crate::order::{Order, Outcome};
use crate::reply::Reply;
use crate::reserving::{RefusedMemory, ReservedParts, reserve_parts};
use crate::run::{Told, outcome_of};
use crate::stage::RunStage;
use crate::trail::Trail;
use events::ended::BareEnding;
use imports::EntryPoint;
use imports::laws::names_are_apart;
use instance::stack::{CallStack, Stop};
use instance::state::State;
use interp::slices::{Paused, Slice};
use std::alloc::Global;
use std::marker::Model;
use syntax::types::Value;

/// An order under way, between two slices. It may be kept, given to another thread, or dropped at any time. Contracts see the order, how
/// many units of fuel it has used so far, how many bytes `in_copy` and `out_set` have copied for it, and its instance as it stands.
#[derive(Drop)]
pub struct Running {
    order: Order,
    machine: WorkMachine,
    stage: RunStage,
}

impl Model for Running {
    ghost use Rattle.std.specs.Coded.{codes};
    ghost use Rattle.syntax.specs.Loaded.{loaded_coded};
    ghost use Rattle.order.specs.Orders.{order_of};
    ghost use Rattle.order.specs.Underway.{Underway};
    ghost use Rattle.order.specs.Inner.Going.{IsGoing, used_in_stage};

    ghost Value = { Underway };

    ghost coded = { Prim.hlevel (codes, loaded_coded) };

    ghost view = { λ r. record { order = order_of r.order; used = used_in_stage r.stage; copied = r.machine.host.copied; store = r.machine.state } };

    ghost invariant = { λ r. IsGoing (order_of r.order) r.machine r.stage };
}

/// What a slice leaves of an order.
#[derive(Drop)]
pub enum OrderGoing {
    /// It is over: the order with what became of it, as `Order::run_told` answers it.
    Over(Told),
    /// It goes on from here.
    Paused(Running),
}

impl Order {
    /// Begins the order: reserves its instance and the bytes of its reply, and runs nothing yet. If memory is refused, the reply says
    /// so. Its module exports `uv_work`, and its bytes and its depth are within their limits, as at `run`.
    pub fn begin(self, alloc: Global) -> Result<Running, Reply>
        requires work { (f : ℕ) × ExportsFunction (arc_value self.module).contents (codes "uv_work") f }
        requires bytes { length (arc_value self.bytes).items ≤ MAX_BYTES }
        requires depth { (1 ≤ self.depth) × (self.depth ≤ MAX_DEPTH) }
        ensures begun { IfOk result (λ r. r ≡ unbegun (order_of self)) }
        ensures refused { IfErr result (λ reply. (reply.order ≡ self) × (end_of reply.outcome ≡ NoMemory)) }
    {
        let reserved = reserve_parts(alloc, &self.module, &self.bytes);
        self.begin_reserved(reserved)
    }

    /// Begins it in what was reserved for it. There was no memory where that was refused, and nowhere else.
    fn begin_reserved(
        self,
        reserved: Result<ReservedParts<Vec<u8>>, RefusedMemory>,
    ) -> Result<Running, Reply>
        requires runs { CanRun (order_of self) }
        requires ready { IfOk reserved (λ r. IsReadyToRun (arc_value self.module).contents r.state) }
        requires fits { IfOk reserved (λ r. MachineFits (arc_value self.module).contents r.machine) }
        requires linked { IfOk reserved (λ r. arc_value r.linked ≡ arc_value self.module) }
        requires input { IfOk reserved (λ r. arc_value r.input ≡ arc_value self.bytes) }
        ensures begun { IfOk result (λ r. r ≡ unbegun (order_of self)) }
        ensures refused { IfErr result (λ reply. (reply.order ≡ self) × (end_of reply.outcome ≡ NoMemory)) }
    {
        match reserved {
            Ok(reserved) => {
                let machine = WorkMachine::of(&self, reserved);
                Ok(Running {
                    order: self,
                    machine,
                    stage: RunStage::Fresh,
                })
            }
            Err(refused) => Err(Reply {
                order: self,
                outcome: Outcome::NoMemory(refused),
            }),
        }
    }
}

impl Running {
    /// Goes on for at most so many units of fuel, at least one. Where the order is over then, the reply is that of `Order::run`, beside
    /// all fuel that it has used; else it has used so many units more, and some are left. Each `UNIT_BYTES` bytes that it copies may count
    /// as a unit here: then it has used fewer, at least one. No memory is taken.
    pub fn go_on(self, units: u64) -> OrderGoing
        requires { 1 ≤ units }
        ensures { OrderGoesOn self units result }
    {
        let Running {
            order,
            machine,
            stage,
        } = self;
        match stage {
            RunStage::Fresh => begin_start(order, machine, units),
            RunStage::Starting(paused) => start_on(order, machine, paused, units),
            RunStage::Working(first, paused) => work_on(order, machine, first, paused, units),
        }
    }

    /// Where the order stands, once something of it has run: there the order with just so much fuel as it has used ends as spent.
    pub fn stop(&self) -> Option<Stop<'_>>
        ensures { OrderStandsAt self.now result }
    {
        let machine = &self.machine.machine;
        match &self.stage {
            RunStage::Fresh => None,
            RunStage::Starting(paused) => machine.stop(paused),
            RunStage::Working(_, paused) => machine.stop(paused),
        }
    }

    /// The order.
    pub fn order(&self) -> &Order
        ensures { order_of result.now ≡ self.now.order }
    {
        &self.order
    }

    /// The units of fuel that it has used so far.
    pub fn used(&self) -> u64
        ensures { result ≡ self.now.used }
    {
        used_at(self.order.fuel, &self.stage)
    }

    /// Its instance as it stands.
    pub fn store(&self) -> &State
        ensures { result.now ≡ self.now.store }
    {
        &self.machine.state
    }

    /// The bytes of its module.
    pub fn module_bytes(&self) -> &[u8]
        ensures { result.now ≡ self.now.order.loaded.bytes }
    {
        self.order.module.valid().module().bytes()
    }
}

/// The units of fuel that an order with so much fuel has used at a stage.
fn used_at(fuel: u64, stage: &RunStage) -> u64
    requires { used_in_stage stage.now ≤ fuel }
    ensures { result ≡ used_in_stage stage.now }
{
    match stage {
        RunStage::Fresh => 0,
        RunStage::Starting(paused) => paused.used(),
        RunStage::Working(first, paused) => *first + paused.used(),
    }
}

/// The answer for an order that is over.
#[inline(always)]
fn tell(
    order: Order,
    host: WorkHost,
    stack: CallStack,
    ending: BareEnding,
    value: Value,
    used: u64,
) -> Told
    requires valid { ValidModule (arc_value order.module).contents }
    requires computes { (end : WorkEnd) → EndsAs (end_of_run (ending_with ending (value ∷ []))) host.reply.items end → Computes (order_of order) end used }
    requires stops { (end : WorkEnd) → EndsAs (end_of_run (ending_with ending (value ∷ []))) host.reply.items end → ComputesTo (order_of order) end used stack }
    requires results { AreResults (ending_with ending (value ∷ [])) (valtype.I32 ∷ []) }
    ensures order { order_of result.reply.order ≡ order_of order }
    ensures memory { end_of result.reply.outcome ≢ NoMemory }
    ensures uses { Uses (order_of order) (end_of result.reply.outcome) result.used }
    ensures leaves { LeavesTrail (order_of order) (end_of result.reply.outcome) result.used result.trail }
    ensures used { result.used ≡ used }
{
    names_are_apart();
    let trail = Trail::of_last(&stack);
    let outcome = outcome_of(ending, value, host.into_reply());
    Told {
        reply: Reply { order, outcome },
        used,
        trail,
    }
}

/// The answer for an order whose machine is at its end.
#[inline(always)]
fn over(order: Order, machine: WorkMachine, ending: BareEnding, value: Value, used: u64) -> Told
    requires runs { RunsOrder (order_of order) machine }
    requires computes { (end : WorkEnd) → EndsAs (end_of_run (ending_with ending (value ∷ []))) machine.host.reply.items end
        → Computes (order_of order) end used × ComputesTo (order_of order) end used (stop_of machine.machine.last machine.machine.frames.items) }
    requires results { AreResults (ending_with ending (value ∷ [])) (valtype.I32 ∷ []) }
    ensures order { order_of result.reply.order ≡ order_of order }
    ensures memory { end_of result.reply.outcome ≢ NoMemory }
    ensures uses { Uses (order_of order) (end_of result.reply.outcome) result.used }
    ensures leaves { LeavesTrail (order_of order) (end_of result.reply.outcome) result.used result.trail }
    ensures used { result.used ≡ used }
{
    let (stack, host) = machine.into_parts();
    tell(order, host, stack, ending, value, used)
}

/// Begins the start function, where there is one, and goes on.
#[inline(always)]
fn begin_start(order: Order, machine: WorkMachine, units: u64) -> OrderGoing
    requires runs { RunsOrder (order_of order) machine }
    requires unbegun { IsUnbegun (order_of order) machine }
    ensures { OrderGoesOn (record { order = order_of order; used = 0; copied = machine.host.copied; store = machine.state }) units result }
{
    let Some(function) = order.module.valid().contents().start else {
        return begin_work(order, machine, 0, units);
    };
    let mut machine = machine;
    let paused = machine.begin(&order, function, &[], order.fuel);
    start_on(order, machine, paused, units)
}

/// Goes on with the start function, and with `uv_work`, where that returns within the slice.
fn start_on(order: Order, machine: WorkMachine, paused: Paused, units: u64) -> OrderGoing
    requires runs { RunsOrder (order_of order) machine }
    requires starting { IsStarting (order_of order) machine paused }
    ensures { OrderGoesOn (record { order = order_of order; used = paused.used; copied = machine.host.copied; store = machine.state }) units result }
{
    let mut machine = machine;
    let mut slice = Slice { paused, units };
    let Some(ended) = machine.go_on(&order, &mut slice, &mut []) else {
        return OrderGoing::Paused(Running {
            order,
            machine,
            stage: RunStage::Starting(slice.paused),
        });
    };
    let BareEnding::Return = ended.ending else {
        let told = over(order, machine, ended.ending, Value::I32(0), ended.used);
        return OrderGoing::Over(told);
    };
    let rest = units - (ended.used - paused.used());
    begin_work(order, machine, ended.used, rest)
}

/// Begins `uv_work`, after a start function that used so much, or none, and goes on.
#[inline(always)]
fn begin_work(order: Order, machine: WorkMachine, first: u64, units: u64) -> OrderGoing
    requires runs { RunsOrder (order_of order) machine }
    requires store { IsStoreOf (arc_value order.module).contents machine.state }
    requires serves { Serves machine.host (order_of order) }
    requires started { StartIsOver (order_of order) first machine.state machine.host.reply.items }
    ensures { OrderGoesOn (record { order = order_of order; used = first; copied = machine.host.copied; store = machine.state }) units result }
{
    let Some(function) = order.module.entry(EntryPoint::Work) else {
        unreachable!();
    };
    if (function as usize) < order.module.valid().contents().imports.len() {
        return OrderGoing::Over(ask(order, machine, function, first));
    }
    let mut machine = machine;
    let args = [Value::I32(order.op)];
    let paused = machine.begin(&order, function, &args, order.fuel - first);
    work_on(order, machine, first, paused, units)
}

/// Goes on with `uv_work`, after a start function that used so much, or none.
#[inline(always)]
fn work_on(order: Order, machine: WorkMachine, first: u64, paused: Paused, units: u64) -> OrderGoing
    requires runs { RunsOrder (order_of order) machine }
    requires working { IsWorking (order_of order) machine first paused }
    ensures { OrderGoesOn (record { order = order_of order; used = first + paused.used; copied = machine.host.copied; store = machine.state }) units result }
{
    let mut machine = machine;
    let mut slice = Slice { paused, units };
    let mut places = [Value::I32(0)];
    let Some(ended) = machine.go_on(&order, &mut slice, &mut places) else {
        return OrderGoing::Paused(Running {
            order,
            machine,
            stage: RunStage::Working(first, slice.paused),
        });
    };
    let used = first + ended.used;
    OrderGoing::Over(over(order, machine, ended.ending, places[0], used))
}

/// Asks the host for a `uv_work` that is an import, after a start function that used so much, or none.
fn ask(order: Order, machine: WorkMachine, function: u32, first: u64) -> Told
    requires runs { RunsOrder (order_of order) machine }
    requires store { IsStoreOf (arc_value order.module).contents machine.state }
    requires serves { Serves machine.host (order_of order) }
    requires started { StartIsOver (order_of order) first machine.state machine.host.reply.items }
    requires exported { ExportsFunction (arc_value order.module).contents (codes "uv_work") function }
    requires typed { type_of_function (arc_value order.module).contents function ≡ Some (type_of_entry Work) }
    requires imported { function < length (arc_value order.module).contents.imports }
    ensures order { order_of result.reply.order ≡ order_of order }
    ensures memory { end_of result.reply.outcome ≢ NoMemory }
    ensures uses { Uses (order_of order) (end_of result.reply.outcome) result.used }
    ensures leaves { LeavesTrail (order_of order) (end_of result.reply.outcome) result.used result.trail }
    ensures used { result.used ≡ first }
{
    let (ended, value, stack, host) = machine.ask(&order, function, order.fuel - first);
    tell(order, host, stack, ended.ending, value, first)
}
