// What one thread computes from an order.

ghost use Rattle.std.specs.Prelude.{◌≡◌, ◌≢◌, ◌≤◌, ℕ, [], ◌∷◌, Some, length, codes, IfOk, IfErr};
ghost use Rattle.std.specs.Arc.{arc_value};
ghost use Rattle.limits.specs.declared.TheConstants.{MAX_BYTES, MAX_DEPTH};
ghost use Rattle.syntax.specs.declared.types.ValType.TheVariants as valtype;
ghost use Rattle.instance.specs.Fresh.{IsFresh};
ghost use Rattle.instance.specs.Storing.{IsStoreOf};
ghost use Rattle.valid.specs.Typing.{type_of_function};
ghost use Rattle.events.specs.Bare.{whole, whole_ending};
ghost use Rattle.reduction.specs.Invoking.{TakesArguments, ReturnsTyped};
ghost use Rattle.reduction.specs.Running.{end_of_run, AreResults};
ghost use Rattle.imports.specs.Linking.{ExportsFunction};
ghost use Rattle.imports.specs.Uv.{type_of_entry};
ghost use Rattle.imports.specs.declared.entry_point.EntryPoint.TheVariants.{Work};
ghost use Rattle.interp.specs.Lent.{result_count, ending_with, ended_with, ended_in};
ghost use Rattle.order.specs.Orders.{order_of, end_of};
ghost use Rattle.order.specs.Inner.Ready.{IsReadyToRun};
ghost use Rattle.order.specs.Inner.Serving.{Serves};
ghost use Rattle.order.specs.Runnable.{CanRun};
ghost use Rattle.order.specs.Stopping.{WorkStop, ComputesTo, LeavesTrail};
ghost use Rattle.order.specs.Work.{WorkEnd, NoMemory, StartRun, Computes, Uses, IsEndOf, EndsAs};

use crate::host::WorkHost;
use crate::order::{Order, Outcome};
use crate::reply::Reply;
use crate::reserving::{RefusedMemory, Reserved, reserve};
use crate::trail::Trail;
use events::ended::{BareEnded, BareEnding};
use imports::EntryPoint;
use imports::laws::names_are_apart;
use instance::room::Room;
use instance::stack::CallStack;
use instance::state::State;
use interp::call::FunctionCall;
use interp::invoke::invoke_lent;
use std::alloc::Global;
use syntax::types::Value;

/// How `uv_work`, or the start function where that did not return, reads as an outcome: this is its result, where it returned.
pub(crate) fn outcome_of(ending: BareEnding, value: Value, reply: Vec<u8>) -> Outcome
    requires { AreResults (ending_with ending (value ∷ [])) (valtype.I32 ∷ []) }
    ensures end { EndsAs (end_of_run (ending_with ending (value ∷ []))) reply.items (end_of result) }
    ensures told { end_of result ≢ NoMemory }
{
    match ending {
        BareEnding::Return => match value {
            Value::I32(value) => Outcome::Done(value, reply),
            Value::I64(_) => unreachable!(),
        },
        BareEnding::Trap(trap) => Outcome::Trap(trap),
        BareEnding::Depth => Outcome::Depth,
        BareEnding::Spent => Outcome::Spent,
    }
}

/// A run of an order: its reply, what it used and where it stopped.
#[derive(Drop)]
pub struct Told {
    /// The order with what became of it.
    pub reply: Reply,
    /// The units of fuel that the start function and `uv_work` used together, at most those of the order; 0 where there was
    /// no memory.
    pub used: u64,
    /// Where the start function or `uv_work` stopped, unless it returned.
    pub trail: Option<Trail>,
}

/// What became of an order whose instance and reply were reserved.
#[derive(Drop)]
struct Computed {
    outcome: Outcome,
    used: u64,
    trail: Option<Trail>,
}

impl Order {
    /// Runs the order: the start function and then `uv_work` on a new instance, with the fuel that is left. Its module
    /// exports `uv_work`, and its bytes and its depth are within their limits, as of each order that a loop hands out.
    /// The instance and the bytes of the reply are reserved first; if memory is refused there, the reply says so.
    pub fn run(self, alloc: Global) -> Reply
        requires work { (f : ℕ) × ExportsFunction (arc_value self.module).contents (codes "uv_work") f }
        requires bytes { length (arc_value self.bytes).items ≤ MAX_BYTES }
        requires depth { (1 ≤ self.depth) × (self.depth ≤ MAX_DEPTH) }
        ensures { result.order ≡ self }
    {
        let Told { reply, .. } = self.run_told(alloc);
        reply
    }

    /// Runs the order as `run` does, and also answers what the run used and where it stopped.
    pub fn run_told(self, alloc: Global) -> Told
        requires work { (f : ℕ) × ExportsFunction (arc_value self.module).contents (codes "uv_work") f }
        requires bytes { length (arc_value self.bytes).items ≤ MAX_BYTES }
        requires depth { (1 ≤ self.depth) × (self.depth ≤ MAX_DEPTH) }
        ensures order { result.reply.order ≡ self }
        ensures used { Uses (order_of self) (end_of result.reply.outcome) result.used }
        ensures within { result.used ≤ self.fuel }
        ensures trail { LeavesTrail (order_of self) (end_of result.reply.outcome) result.used result.trail }
    {
        self.run_in(alloc, &mut Room::empty())
    }

    /// Runs the order as `run_told` does, its instance in the room that another order's had. It leaves its own there.
    pub fn run_in(self, alloc: Global, room: &mut Room) -> Told
        requires work { (f : ℕ) × ExportsFunction (arc_value self.module).contents (codes "uv_work") f }
        requires bytes { length (arc_value self.bytes).items ≤ MAX_BYTES }
        requires depth { (1 ≤ self.depth) × (self.depth ≤ MAX_DEPTH) }
        ensures order { result.reply.order ≡ self }
        ensures used { Uses (order_of self) (end_of result.reply.outcome) result.used }
        ensures within { result.used ≤ self.fuel }
        ensures trail { LeavesTrail (order_of self) (end_of result.reply.outcome) result.used result.trail }
    {
        let reserved = reserve(alloc, &self.module, &self.bytes, room);
        self.run_reserved(reserved, room)
    }

    /// Runs the order in what was reserved for it. There was no memory where that was refused, and nowhere else.
    fn run_reserved(
        self,
        reserved: Result<Reserved<Vec<u8>>, RefusedMemory>,
        room: &mut Room,
    ) -> Told
        requires runs { CanRun (order_of self) }
        requires ready { IfOk reserved (λ r. IsReadyToRun (arc_value self.module).contents r.instance.state) }
        requires linked { IfOk reserved (λ r. arc_value r.linked ≡ arc_value self.module) }
        requires input { IfOk reserved (λ r. arc_value r.input ≡ arc_value self.bytes) }
        ensures order { result.reply.order ≡ self }
        ensures memory { IfOk reserved (λ _. end_of result.reply.outcome ≢ NoMemory) }
        ensures refused { IfErr reserved (λ _. end_of result.reply.outcome ≡ NoMemory) }
        ensures used { Uses (order_of self) (end_of result.reply.outcome) result.used }
        ensures within { result.used ≤ self.fuel }
        ensures trail { LeavesTrail (order_of self) (end_of result.reply.outcome) result.used result.trail }
    {
        let computed = match reserved {
            Ok(reserved) => self.compute(reserved, room),
            Err(refused) => Computed {
                outcome: Outcome::NoMemory(refused),
                used: 0,
                trail: None,
            },
        };
        Told {
            reply: Reply {
                order: self,
                outcome: computed.outcome,
            },
            used: computed.used,
            trail: computed.trail,
        }
    }

    /// Runs the order on a new instance, for a host that has set no bytes. Nothing is reserved.
    fn compute(&self, reserved: Reserved<Vec<u8>>, room: &mut Room) -> Computed
        requires runs { CanRun (order_of self.now) }
        requires ready { IsReadyToRun (arc_value self.now.module).contents reserved.instance.state }
        requires linked { arc_value reserved.linked ≡ arc_value self.now.module }
        requires input { arc_value reserved.input ≡ arc_value self.now.bytes }
        ensures end { IsEndOf (order_of self.now) (end_of result.outcome) }
        ensures told { end_of result.outcome ≢ NoMemory }
        ensures used { Uses (order_of self.now) (end_of result.outcome) result.used }
        ensures within { result.used ≤ self.now.fuel }
        ensures trail { LeavesTrail (order_of self.now) (end_of result.outcome) result.used result.trail }
    {
        names_are_apart();
        let Reserved {
            instance,
            linked,
            input,
            reply,
        } = reserved;
        let (mut state, mut stack) = instance.into_parts();
        let mut host = WorkHost {
            linked,
            bytes: input,
            reply,
            copied: 0,
        };
        let (ended, value) = self.start_and_work(&mut state, &mut stack, &mut host);
        let trail = Trail::of_last(&stack);
        room.keep(state, stack);
        Computed {
            outcome: outcome_of(ended.ending, value, host.into_reply()),
            used: ended.used,
            trail,
        }
    }

    /// The start function and, where it returns, `uv_work`, with its result, where that returns too.
    fn start_and_work(
        &self,
        state: &mut State,
        stack: &mut CallStack,
        host: &mut WorkHost,
    ) -> (BareEnded, Value)
        requires runs { CanRun (order_of self.now) }
        requires fresh { IsFresh (arc_value self.now.module).contents state.old }
        requires store { IsStoreOf (arc_value self.now.module).contents state.old }
        requires serves { Serves host.old (order_of self.now) }
        requires empty { host.old.reply.items ≡ [] }
        ensures computes { (end : WorkEnd) → EndsAs (end_of_run (ending_with result.0.ending (result.1 ∷ []))) host.new.reply.items end
            → Computes (order_of self.now) end result.0.used }
        ensures stops { (end : WorkEnd) → EndsAs (end_of_run (ending_with result.0.ending (result.1 ∷ []))) host.new.reply.items end
            → ComputesTo (order_of self.now) end result.0.used stack.new }
        ensures within { result.0.used ≤ self.now.fuel }
        ensures results { AreResults (ending_with result.0.ending (result.1 ∷ [])) (valtype.I32 ∷ []) }
    {
        let started = self.start(state, stack, host);
        let BareEnding::Return = started.ending else {
            return (started, Value::I32(0));
        };
        let (ended, value) = self.work(state, stack, host, self.fuel - started.used);
        let whole = BareEnded {
            ending: ended.ending,
            used: started.used + ended.used,
        };
        (whole, value)
    }

    /// The start function, where there is one.
    fn start(&self, state: &mut State, stack: &mut CallStack, host: &mut WorkHost) -> BareEnded
        requires store { IsStoreOf (arc_value self.now.module).contents state.old }
        requires serves { Serves host.old (order_of self.now) }
        requires empty { host.old.reply.items ≡ [] }
        requires runs { CanRun (order_of self.now) }
        ensures run { StartRun (order_of self.now) (arc_value self.now.module).contents.start state.old (end_of_run (whole_ending result.ending)) result.used state.new host.new.reply.items }
        ensures stops { (f : ℕ) → (arc_value self.now.module).contents.start ≡ Some f
            → WorkStop (order_of self.now) self.now.fuel state.old [] f [] (whole result) state.new host.new.reply.items stack.new }
        ensures within { result.used ≤ self.now.fuel }
        ensures store { IsStoreOf (arc_value self.now.module).contents state.new }
        ensures serves { Serves host.new (order_of self.now) }
    {
        let Some(function) = self.module.valid().contents().start else {
            return BareEnded {
                ending: BareEnding::Return,
                used: 0,
            };
        };
        let call = FunctionCall {
            function,
            args: &[],
            fuel: self.fuel,
            depth: self.depth,
        };
        self.call(&call, state, stack, host, &mut [])
    }

    /// `uv_work`, with the fuel that is left, and its result, where it returns.
    fn work(
        &self,
        state: &mut State,
        stack: &mut CallStack,
        host: &mut WorkHost,
        fuel: u64,
    ) -> (BareEnded, Value)
        requires runs { CanRun (order_of self.now) }
        requires store { IsStoreOf (arc_value self.now.module).contents state.old }
        requires serves { Serves host.old (order_of self.now) }
        ensures run { (f : ℕ) × ExportsFunction (arc_value self.now.module).contents (codes "uv_work") f
            × WorkStop (order_of self.now) fuel state.old host.old.reply.items f (Value.I32 self.now.op ∷ []) (ended_with result.0 (result.1 ∷ [])) state.new host.new.reply.items stack.new }
        ensures within { result.0.used ≤ fuel }
        ensures results { AreResults (ending_with result.0.ending (result.1 ∷ [])) (valtype.I32 ∷ []) }
    {
        let Some(function) = self.module.entry(EntryPoint::Work) else {
            unreachable!();
        };
        self.call_work(state, stack, host, function, fuel)
    }

    /// `uv_work`, which is this function, and its result, where it returns.
    pub(crate) fn call_work(
        &self,
        state: &mut State,
        stack: &mut CallStack,
        host: &mut WorkHost,
        function: u32,
        fuel: u64,
    ) -> (BareEnded, Value)
        requires runs { CanRun (order_of self.now) }
        requires store { IsStoreOf (arc_value self.now.module).contents state.old }
        requires serves { Serves host.old (order_of self.now) }
        requires typed { type_of_function (arc_value self.now.module).contents function ≡ Some (type_of_entry Work) }
        ensures run { WorkStop (order_of self.now) fuel state.old host.old.reply.items function (Value.I32 self.now.op ∷ [])
            (ended_with result.0 (result.1 ∷ [])) state.new host.new.reply.items stack.new }
        ensures within { result.0.used ≤ fuel }
        ensures results { AreResults (ending_with result.0.ending (result.1 ∷ [])) (valtype.I32 ∷ []) }
    {
        let mut places = [Value::I32(0)];
        let call = FunctionCall {
            function,
            args: &[Value::I32(self.op)],
            fuel,
            depth: self.depth,
        };
        let ended = self.call(&call, state, stack, host, &mut places);
        (ended, places[0])
    }

    /// A function of the order's module, whose results go to the first of these places.
    fn call(
        &self,
        call: &FunctionCall,
        state: &mut State,
        stack: &mut CallStack,
        host: &mut WorkHost,
        places: &mut [Value],
    ) -> BareEnded
        requires takes { TakesArguments (arc_value self.now.module).contents call.now.function call.now.args.now }
        requires room { result_count (arc_value self.now.module).contents call.now.function ≤ length places.old }
        requires depth { call.now.depth ≡ self.now.depth }
        requires store { IsStoreOf (arc_value self.now.module).contents state.old }
        requires serves { Serves host.old (order_of self.now) }
        requires runs { CanRun (order_of self.now) }
        ensures run { WorkStop (order_of self.now) call.now.fuel state.old host.old.reply.items call.now.function call.now.args.now
            (ended_in (arc_value self.now.module).contents call.now.function result places.new) state.new host.new.reply.items stack.new }
        ensures within { result.used ≤ call.now.fuel }
        ensures results { ReturnsTyped (arc_value self.now.module).contents call.now.function (ended_in (arc_value self.now.module).contents call.now.function result places.new).ending }
        ensures store { IsStoreOf (arc_value self.now.module).contents state.new }
        ensures serves { Serves host.new (order_of self.now) }
    {
        invoke_lent(self.module.valid(), state, stack, host, places, call)
    }
}
