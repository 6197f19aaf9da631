// What an order under way runs on.

ghost use Rattle.std.specs.Prelude.{◌≡◌, ◌<◌, ◌≤◌, ℕ, List, [], ◌∷◌, length, Some, None, IsSome, IfSome};
ghost use Rattle.std.specs.Arc.{arc_value};
ghost use Rattle.limits.specs.declared.TheConstants.{MAX_DEPTH};
ghost use Rattle.syntax.specs.declared.types.ValType.TheVariants as valtype;
ghost use Rattle.syntax.specs.declared.types.Value.{Value as Argument};
ghost use Rattle.syntax.specs.declared.types.Value.TheVariants as value;
ghost use Rattle.valid.specs.Typing.{type_of_function};
ghost use Rattle.imports.specs.Uv.{type_of_entry};
ghost use Rattle.imports.specs.declared.entry_point.EntryPoint.TheVariants.{Work};
ghost use Rattle.instance.specs.Store.{Store};
ghost use Rattle.instance.specs.Storing.{IsStoreOf};
ghost use Rattle.instance.specs.Stops.{stop_of};
ghost use Rattle.reduction.specs.Invoking.{TakesArguments, ReturnsTyped};
ghost use Rattle.reduction.specs.Running.{AreResults};
ghost use Rattle.interp.specs.Lent.{result_count, ending_with, ended_with, ended_in};
ghost use Rattle.interp.specs.Machines.{MachineFits};
ghost use Rattle.interp.specs.Slices.{UsesAll, UsesSome};
ghost use Rattle.order.specs.declared.host.WorkHost.{WorkHost as Answering};
ghost use Rattle.order.specs.Orders.{order_of};
ghost use Rattle.order.specs.Runnable.{CanRun};
ghost use Rattle.order.specs.Stopping.{WorkStop};
ghost use Rattle.order.specs.Inner.Ready.{IsReadyToRun};
ghost use Rattle.order.specs.Inner.Serving.{Serves};
ghost use Rattle.order.specs.Inner.Going.{IsCallingOn, IsUnbegun, RunsOrder};

use crate::host::WorkHost;
use crate::order::Order;
use crate::reserving::ReservedParts;
use events::ended::BareEnded;
use instance::stack::CallStack;
use instance::state::State;
use interp::call::FunctionCall;
use interp::machine::Machine;
use interp::slices::{Paused, Slice};
use syntax::types::Value;

/// What an order under way runs on: its instance's state, its host, and a machine for calls in slices. All of it is reserved when the
/// order begins.
#[derive(Drop)]
pub(crate) struct WorkMachine {
    pub(crate) state: State,
    pub(crate) host: WorkHost,
    pub(crate) machine: Machine,
}

impl WorkMachine {
    /// The machine of an order, in what was reserved for it.
    pub(crate) fn of(order: &Order, reserved: ReservedParts<Vec<u8>>) -> WorkMachine
        requires can { CanRun (order_of order.now) }
        requires ready { IsReadyToRun (arc_value order.now.module).contents reserved.state }
        requires fits { MachineFits (arc_value order.now.module).contents reserved.machine }
        requires linked { arc_value reserved.linked ≡ arc_value order.now.module }
        requires input { arc_value reserved.input ≡ arc_value order.now.bytes }
        ensures runs { RunsOrder (order_of order.now) result }
        ensures unbegun { IsUnbegun (order_of order.now) result }
        ensures copied { result.host.copied ≡ 0 }
    {
        let ReservedParts {
            state,
            machine,
            linked,
            input,
            reply,
        } = reserved;
        WorkMachine {
            state,
            host: WorkHost {
                linked,
                bytes: input,
                reply,
                copied: 0,
            },
            machine,
        }
    }

    /// Begins a call of a defined function of the order's module. Nothing of it runs yet.
    #[inline(always)]
    pub(crate) fn begin(
        &mut self,
        order: &Order,
        function: u32,
        args: &[Value],
        fuel: u64,
    ) -> Paused
        requires runs { RunsOrder (order_of order.now) self.old }
        requires store { IsStoreOf (arc_value order.now.module).contents self.old.state }
        requires serves { Serves self.old.host (order_of order.now) }
        requires typed { TakesArguments (arc_value order.now.module).contents function args.now }
        requires defined { length (arc_value order.now.module).contents.imports ≤ function }
        ensures calling { IsCallingOn (order_of order.now) self.new self.old.state self.old.host result fuel args.now }
        ensures function { result.function ≡ function }
        ensures runs { RunsOrder (order_of order.now) self.new }
        ensures used { result.used ≡ 0 }
        ensures copied { self.new.host.copied ≡ self.old.host.copied }
    {
        let WorkMachine {
            state,
            host,
            machine,
        } = self;
        let call = FunctionCall {
            function,
            args,
            fuel,
            depth: order.depth,
        };
        machine.begin(order.module.valid(), state, host, &call)
    }

    /// Goes on with a call of a function of the order's module for at most the units of the slice, and returns its ending, if it is
    /// over then. Its results are written to the first of the places that are lent, at least as many as it has.
    #[inline(always)]
    pub(crate) fn go_on(
        &mut self,
        order: &Order,
        slice: &mut Slice,
        places: &mut [Value],
    ) -> Option<BareEnded>
        requires runs { RunsOrder (order_of order.now) self.old }
        requires calling { (s : Store) × (old : Answering) × (args : List Argument) × (fuel : ℕ) × IsCallingOn (order_of order.now) self.old s old slice.old.paused fuel args }
        requires places { result_count (arc_value order.now.module).contents slice.old.paused.function ≤ length places.old }
        ensures over { IfSome result (λ ended. (s : Store) (old : Answering) (args : List Argument) (fuel : ℕ)
            → IsCallingOn (order_of order.now) self.old s old slice.old.paused fuel args
            → WorkStop (order_of order.now) fuel s old.reply.items slice.old.paused.function args
            (ended_in (arc_value order.now.module).contents slice.old.paused.function ended places.new) self.new.state self.new.host.reply.items
            (stop_of self.new.machine.last self.new.machine.frames.items) × Serves self.new.host (order_of order.now) × (ended.used ≤ fuel)) }
        ensures paused { result ≡ None → (s : Store) (old : Answering) (args : List Argument) (fuel : ℕ)
            → IsCallingOn (order_of order.now) self.old s old slice.old.paused fuel args
            → IsCallingOn (order_of order.now) self.new s old slice.new.paused fuel args }
        ensures stands { result ≡ None → IsSome slice.new.paused.last }
        ensures function { slice.new.paused.function ≡ slice.old.paused.function }
        ensures slice { result ≡ None → UsesAll slice.old.paused slice.old.units self.old.host.copied self.new.host.copied slice.new.paused }
        ensures last { IfSome result (λ e. UsesSome slice.old.paused slice.old.units self.old.host.copied self.new.host.copied e.used) }
        ensures results { IfSome result (λ e. ReturnsTyped (arc_value order.now.module).contents slice.old.paused.function
            (ended_in (arc_value order.now.module).contents slice.old.paused.function e places.new).ending) }
        ensures copies { self.old.host.copied ≤ self.new.host.copied }
        ensures store { IsStoreOf (arc_value order.now.module).contents self.new.state }
        ensures runs { RunsOrder (order_of order.now) self.new }
    {
        let WorkMachine {
            state,
            host,
            machine,
        } = self;
        machine.go_on_lent(order.module.valid(), state, host, slice, places)
    }

    /// The stack and the host, where the order is over.
    #[inline(always)]
    pub(crate) fn into_parts(self) -> (CallStack, WorkHost)
        requires room { MAX_DEPTH ≤ length self.machine.frames.items }
        requires shallow { IfSome self.machine.last (λ l. l.depth ≤ MAX_DEPTH) }
        ensures stack { result.0 ≡ stop_of self.machine.last self.machine.frames.items }
        ensures host { result.1 ≡ self.host }
    {
        let WorkMachine {
            state: _,
            host,
            machine,
        } = self;
        (machine.into_stack(), host)
    }

    /// Calls `uv_work`, which is this imported function and uses no fuel. Its result is beside its ending.
    pub(crate) fn ask(
        self,
        order: &Order,
        function: u32,
        fuel: u64,
    ) -> (BareEnded, Value, CallStack, WorkHost)
        requires runs { RunsOrder (order_of order.now) self }
        requires store { IsStoreOf (arc_value order.now.module).contents self.state }
        requires serves { Serves self.host (order_of order.now) }
        requires typed { type_of_function (arc_value order.now.module).contents function ≡ Some (type_of_entry Work) }
        requires imported { function < length (arc_value order.now.module).contents.imports }
        ensures ran { (t : Store) × WorkStop (order_of order.now) fuel self.state self.host.reply.items function (value.I32 order.now.op ∷ [])
            (ended_with result.0 (result.1 ∷ [])) t result.3.reply.items result.2 }
        ensures free { result.0.used ≡ 0 }
        ensures results { AreResults (ending_with result.0.ending (result.1 ∷ [])) (valtype.I32 ∷ []) }
    {
        let WorkMachine {
            state,
            host,
            machine,
        } = self;
        let (mut state, mut host) = (state, host);
        let mut stack = machine.into_stack();
        let (ended, value) = order.call_work(&mut state, &mut stack, &mut host, function, fuel);
        (ended, value, stack, host)
    }
}
