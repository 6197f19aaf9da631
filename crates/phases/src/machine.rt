// What a callback under way runs on.

ghost use Rattle.std.specs.Prelude.{◌≡◌, ◌≤◌, false, ℕ, List, Option, length, None, IfSome};
ghost use Rattle.std.specs.Arc.{arc_value};
ghost use Rattle.limits.specs.declared.TheConstants.{MAX_DEPTH};
ghost use Rattle.syntax.specs.declared.types.Value.{Value as Argument};
ghost use Rattle.instance.specs.Store.{Store};
ghost use Rattle.instance.specs.Storing.{IsStoreOf};
ghost use Rattle.instance.specs.Stops.{stop_of};
ghost use Rattle.events.specs.Bare.{IsBare};
ghost use Rattle.events.specs.declared.did.StepDid.TheVariants as step_did;
ghost use Rattle.interp.specs.Machines.{IsPausedOn, IsSomePausedOn};
ghost use Rattle.interp.specs.Slices.{RunIsOver, UsesAll, UsesSome};
ghost use Rattle.reduction.specs.Invoking.{TakesArguments, ReturnsTyped};
ghost use Rattle.phases.specs.Bare.{whole_did};
ghost use Rattle.phases.specs.Guests.{GuestCall};
ghost use Rattle.phases.specs.Inner.Ended.{CallbackHasEnded};
ghost use Rattle.phases.specs.Outside.{is_failed};
ghost use Rattle.phases.specs.State.{Setting, Loop};
ghost use Rattle.phases.specs.Step.{RunsFrom};
ghost use Rattle.phases.specs.Underway.{Host, moves};
ghost use Rattle.phases.specs.Settings.{setting_of};
ghost use Rattle.phases.specs.Inner.Underway.{LoopMachineFits};

use crate::did::BareDid;
use crate::loop_core::LoopCore;
use crate::loop_host::LoopHost;
use crate::shared::Shared;
use events::ended::{BareEnded, BareEnding, Ended};
use events::phase::EntryKind;
use events::settings::LoopSettings;
use imports::Linked;
use instance::state::State;
use interp::call::FunctionCall;
use interp::machine::Machine;
use interp::slices::{Paused, Slice};
use std::alloc::Global;
use std::sync::Arc;
use syntax::types::Value;
use valid::Valid;

/// What a callback under way runs on: its loop's instance and host, and a machine for calls in slices.
#[derive(Drop)]
pub(crate) struct LoopMachine<B: Shared + Drop> {
    pub(crate) store: State,
    pub(crate) host: LoopHost<B>,
    pub(crate) machine: Machine,
}

impl<B: Shared + Drop> LoopMachine<B> {
    /// Begins a call of a defined function within the loop's fuel and depth. Nothing of it runs yet.
    pub(crate) fn begin(&mut self, valid: &Valid, function: u32, args: &[Value]) -> Paused
        requires fits { LoopMachineFits valid.now self.old }
        requires store { IsStoreOf valid.now.contents self.old.store }
        requires typed { TakesArguments valid.now.contents function args.now }
        requires defined { length valid.now.contents.imports ≤ function }
        requires deep { (1 ≤ (setting_of self.old.host.setting).depth) × ((setting_of self.old.host.setting).depth ≤ MAX_DEPTH) }
        ensures paused { IsPausedOn valid.now.contents self.new.machine (moves B.calls) self.new.store self.new.host args.now
            (setting_of self.new.host.setting).fuel result self.new.store self.new.host }
        ensures store { self.new.store ≡ self.old.store }
        ensures host { self.new.host ≡ self.old.host }
        ensures function { result.function ≡ function }
        ensures depth { result.depth ≡ (setting_of self.new.host.setting).depth }
        ensures used { result.used ≡ 0 }
        ensures fits { LoopMachineFits valid.now self.new }
    {
        let LoopMachine {
            store,
            host,
            machine,
        } = self;
        let LoopSettings { fuel, depth, .. } = host.setting.settings;
        let call = FunctionCall {
            function,
            args,
            fuel,
            depth,
        };
        machine.begin(valid, store, host, &call)
    }

    /// Goes on with a call for at most the units of the slice, as `Machine::go_on` does.
    pub(crate) fn go_on(&mut self, valid: &Valid, slice: &mut Slice) -> Option<Ended>
        requires fits { LoopMachineFits valid.now self.old }
        requires paused { IsSomePausedOn valid.now.contents self.old.machine (moves B.calls) slice.old.paused self.old.store self.old.host }
        ensures over { IfSome result (λ ended. (s : Store) (before : Host B.calls) (args : List Argument) (fuel : ℕ)
            → IsPausedOn valid.now.contents self.old.machine (moves B.calls) s before args fuel slice.old.paused self.old.store self.old.host
            → RunIsOver valid.now.contents slice.old.paused.depth (moves B.calls) slice.old.paused.function s before args fuel ended self.new.store
            self.new.host (stop_of self.new.machine.last self.new.machine.frames.items)) }
        ensures paused { result ≡ None → (s : Store) (before : Host B.calls) (args : List Argument) (fuel : ℕ)
            → IsPausedOn valid.now.contents self.old.machine (moves B.calls) s before args fuel slice.old.paused self.old.store self.old.host
            → IsPausedOn valid.now.contents self.new.machine (moves B.calls) s before args fuel slice.new.paused self.new.store self.new.host }
        ensures call { (slice.new.paused.function ≡ slice.old.paused.function) × (slice.new.paused.depth ≡ slice.old.paused.depth) }
        ensures slice { result ≡ None → UsesAll slice.old.paused slice.old.units self.old.host.copied self.new.host.copied slice.new.paused }
        ensures last { IfSome result (λ ended. UsesSome slice.old.paused slice.old.units self.old.host.copied self.new.host.copied ended.used) }
        ensures results { IfSome result (λ ended. ReturnsTyped valid.now.contents slice.old.paused.function ended.ending) }
        ensures kept { IsStoreOf valid.now.contents self.new.store }
        ensures fits { LoopMachineFits valid.now self.new }
    {
        let LoopMachine {
            store,
            host,
            machine,
        } = self;
        machine.go_on(valid, store, host, slice)
    }

    /// The loop whose callback has ended so, and what its step did.
    pub(crate) fn over(
        self,
        linked: Arc<Linked, Global>,
        place: Ended,
        kind: EntryKind,
        number: u32,
    ) -> (LoopCore<B>, BareDid)
        requires some { (g : Setting) × (mid : Loop B) × (function : ℕ) × (args : List Argument) × (reply : Option (List ℕ))
            × CallbackHasEnded g mid function args reply (arc_value linked) self place × (is_failed mid.state.status ≡ false) }
        requires bare { IsBare place.ending }
        requires room { MAX_DEPTH ≤ length self.machine.frames.items }
        requires shallow { IfSome self.machine.last (λ l. l.depth ≤ MAX_DEPTH) }
        requires store { IsStoreOf (arc_value linked).contents self.store }
        ensures runs { (g : Setting) (mid : Loop B) (function : ℕ) (args : List Argument) (reply : Option (List ℕ))
            → CallbackHasEnded g mid function args reply (arc_value linked) self place
            → (result.0.setting ≡ g) × ((made : List GuestCall) × RunsFrom B.calls g mid kind number function args reply (whole_did result.1) made result.0.loop) }
        ensures did { whole_did result.1 ≡ step_did.Ran kind number place }
    {
        let LoopMachine {
            store,
            host,
            machine,
        } = self;
        // by its contract the module is linked
        let _valid = linked.valid();
        let stack = machine.into_stack();
        let ended = BareEnded {
            ending: BareEnding::of(&place.ending),
            used: place.used,
        };
        let mut host = host;
        host.state.end_callback(ended);
        let core = LoopCore {
            linked,
            store,
            stack,
            host,
        };
        let did = BareDid::Ran {
            kind,
            number,
            ended,
        };
        (core, did)
    }
}
