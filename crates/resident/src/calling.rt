// A call of an instance in slices.

ghost use Rattle.std.specs.Prelude.{◌≡◌, ◌≤◌, ℕ, length, take, Option, Some, None, IfSome};
ghost use Rattle.limits.specs.declared.TheConstants.{MAX_DEPTH};
ghost use Rattle.events.specs.declared.ended.Ending.TheVariants.{Return};
ghost use Rattle.instance.specs.Storing.{IsStoreOf};
ghost use Rattle.instance.specs.Stops.{Halt};
ghost use Rattle.reduction.specs.Invoking.{TakesArguments};
ghost use Rattle.reduction.specs.Run.{as_operands};
ghost use Rattle.interp.specs.Lent.{ended_in, result_count};
ghost use Rattle.resident.specs.Bare.{BeginsGoing, whole_going};
ghost use Rattle.resident.specs.Slices.{CallGoesOn, CallIsOver, CallStandsAt, EndsCall, IsPausedAgain};
ghost use Rattle.resident.specs.Underway.{HasCome, ComesTo, IsSomeCall, used_at, used_by};
ghost use Rattle.interp.specs.Machines.{MachineFits};
ghost use Rattle.resident.specs.Inner.Going.{call_underway, inside_call, last_at, on_machine, paused_at, at_rest};

use crate::kept::{CallPlace, InstanceRoom};
use crate::no_host::{NoHost, answer};
use crate::resident::{Resident, result_count};
use events::ended::{BareEnded, BareEnding, Ended, Ending};
use events::values::Values;
use imports::Linked;
use instance::stack::Stop;
use instance::state::State;
use interp::call::FunctionCall;
use interp::machine::Machine;
use interp::slices::{Paused, Slice};
use limits::MAX_DEPTH;
use std::alloc::Global;
use std::marker::Model;
use syntax::types::Value;
use valid::Valid;

/// A call of an instance under way, between two slices, with the instance. It may be kept, given to another thread, or dropped at any
/// time. An import is asked in the first slice.
#[derive(Drop)]
pub struct Calling {
    kept: Box<InstanceRoom, Global>,
}

impl Model for Calling {
    ghost use Rattle.std.specs.Arc.{arc_value};
    ghost use Rattle.std.specs.Coded.{codes};
    ghost use Rattle.syntax.specs.Loaded.{loaded_coded};
    ghost use Rattle.resident.specs.Underway.{CallUnderway};
    ghost use Rattle.resident.specs.Inner.Going.{call_underway, CallIsGoing};

    ghost Value = { CallUnderway };

    ghost coded = { Prim.hlevel (codes, loaded_coded) };

    ghost view = { λ c. call_underway (arc_value c.kept.value.linked) c.kept.value.state c.kept.value.machine c.kept.value.place };

    ghost invariant = { λ c. CallIsGoing (arc_value c.kept.value.linked) c.kept.value.state c.kept.value.machine c.kept.value.place };
}

/// What a slice leaves of a call.
#[derive(Drop)]
pub enum Going {
    /// It is over, and this is how it ended. The instance stays as it is then, and may be called again.
    Over(Resident, Ended),
    /// It goes on from here.
    Paused(Calling),
}

/// What a slice leaves of a call whose results are written to places that are lent.
#[derive(Drop)]
pub enum BareGoing {
    /// It is over, and this is how it ended.
    Over(Resident, BareEnded),
    /// It goes on from here.
    Paused(Calling),
}

/// How a call of an import ends that was answered so.
fn returned(answer: Option<Value>) -> Ended
    ensures { result ≡ record { ending = Return (as_operands answer); used = 0 } }
{
    let values = match answer {
        Some(value) => Values::from_slice(&[value]),
        None => Values::empty(),
    };
    Ended {
        ending: Ending::Return(values),
        used: 0,
    }
}

/// Begins a call on this machine. Nothing of it runs yet.
#[inline(always)]
fn begin_call(machine: &mut Machine, valid: &Valid, state: &State, call: &FunctionCall) -> CallPlace
    requires runs { MachineFits valid.now.contents machine.old }
    requires store { IsStoreOf valid.now.contents state.now }
    requires typed { TakesArguments valid.now.contents call.now.function call.now.args.now }
    requires deep { (1 ≤ call.now.depth) × (call.now.depth ≤ MAX_DEPTH) }
    ensures comes { ComesTo (call_underway valid.now state.now machine.new result) (paused_at result) state.now call.now.fuel call.now.args.now }
    ensures function { (call_underway valid.now state.now machine.new result).function ≡ call.now.function }
    ensures depth { (call_underway valid.now state.now machine.new result).depth ≡ call.now.depth }
    ensures unused { used_by (call_underway valid.now state.now machine.new result) ≡ 0 }
    ensures runs { MachineFits valid.now.contents machine.new }
{
    if (call.function as usize) < valid.contents().imports.len() {
        return CallPlace::Import(call.function, call.depth);
    }
    let host = NoHost::new(valid);
    CallPlace::Inside(machine.begin(valid, state, &host, call))
}

/// Gives up a call on its machine, and returns the fuel that it has used.
fn give_up(machine: &mut Machine, place: &CallPlace) -> u64
    ensures machine { machine.new ≡ on_machine machine.old (last_at place.now) }
    ensures used { result ≡ used_at (paused_at place.now) }
{
    match place {
        CallPlace::Import(_, _) => {
            machine.last = None;
            0
        }
        CallPlace::Inside(paused) => {
            machine.give_up(paused);
            paused.used()
        }
    }
}

/// Goes on with a call of a function of the module for at most the units of the slice. Where it is over then, its ending is told.
fn go_on_call(
    machine: &mut Machine,
    valid: &Valid,
    state: &mut State,
    slice: &mut Slice,
) -> Option<Ended>
    requires runs { MachineFits valid.now.contents machine.old }
    requires some { IsSomeCall (inside_call valid.now state.old machine.old slice.old.paused) }
    ensures over { IfSome result (CallIsOver (inside_call valid.now state.old machine.old slice.old.paused) slice.old.units (at_rest valid.now state.new machine.new)) }
    ensures paused { result ≡ None → IsPausedAgain (inside_call valid.now state.old machine.old slice.old.paused) slice.old.units
        (inside_call valid.now state.new machine.new slice.new.paused) }
    ensures runs { MachineFits valid.now.contents machine.new }
    ensures store { IsStoreOf valid.now.contents state.new }
{
    let mut host = NoHost::new(valid);
    machine.go_on(valid, state, &mut host, slice)
}

/// Goes on so, and writes the results of a call that returns to the first of the places that are lent.
#[inline(always)]
fn go_on_call_into(
    machine: &mut Machine,
    valid: &Valid,
    state: &mut State,
    slice: &mut Slice,
    results: &mut [Value],
) -> Option<BareEnded>
    requires runs { MachineFits valid.now.contents machine.old }
    requires some { IsSomeCall (inside_call valid.now state.old machine.old slice.old.paused) }
    requires room { result_count valid.now.contents slice.old.paused.function ≤ length results.old }
    ensures over { IfSome result (λ ended. CallIsOver (inside_call valid.now state.old machine.old slice.old.paused) slice.old.units (at_rest valid.now state.new machine.new)
        (ended_in valid.now.contents slice.old.paused.function ended results.new)) }
    ensures paused { result ≡ None → IsPausedAgain (inside_call valid.now state.old machine.old slice.old.paused) slice.old.units
        (inside_call valid.now state.new machine.new slice.new.paused) }
    ensures runs { MachineFits valid.now.contents machine.new }
    ensures store { IsStoreOf valid.now.contents state.new }
{
    let mut host = NoHost::new(valid);
    machine.go_on_lent(valid, state, &mut host, slice, results)
}

/// Writes an answer of an import, where there is one, to the first place.
fn place_answer(answer: Option<Value>, results: &mut [Value])
    requires { length (as_operands answer) ≤ length results.old }
    ensures { take (length (as_operands answer)) results.new ≡ as_operands answer }
{
    if let Some(value) = answer {
        results[0] = value;
    }
}

impl Resident {
    /// Begins a call of a function, to be made in slices. Nothing of it runs yet. No memory is taken: the instance has the room of its calls. It
    /// stands in its own place: so the call is written where it is kept, and a slice reads it there.
    #[inline(never)]
    pub fn begin(self, function: u32, args: &[Value], fuel: u64, depth: u32) -> Calling
        requires typed { TakesArguments self.loaded.contents function args.now }
        requires depth { (1 ≤ depth) × (depth ≤ MAX_DEPTH) }
        ensures begun { HasCome self depth fuel function args.now result }
        ensures unused { used_by result ≡ 0 }
    {
        let call = FunctionCall {
            function,
            args,
            fuel,
            depth,
        };
        let mut kept = self.into_kept();
        let InstanceRoom {
            linked,
            state,
            machine,
            place,
        } = &mut *kept;
        *place = begin_call(machine, linked.valid(), state, &call);
        Calling { kept }
    }

    /// Begins a call and goes on with it for at most so many units of fuel, at least one. Where it is over then, its results are in the first of
    /// the places that are lent, at least as many as the function has. No memory is taken, and what is over in its first slice costs little more
    /// than `call_into`.
    #[inline(always)]
    pub fn call_for(
        self,
        function: u32,
        args: &[Value],
        fuel: u64,
        depth: u32,
        units: u64,
        results: &mut [Value],
    ) -> BareGoing
        requires typed { TakesArguments self.loaded.contents function args.now }
        requires room { result_count self.loaded.contents function ≤ length results.old }
        requires depth { (1 ≤ depth) × (depth ≤ MAX_DEPTH) }
        requires units { 1 ≤ units }
        ensures { BeginsGoing self depth fuel function args.now units (whole_going self.loaded.contents function result results.new) }
    {
        self.begin(function, args, fuel, depth)
            .go_on_into(units, results)
    }
}

impl Calling {
    /// Goes on for at most so many units of fuel, at least one. Where the call is over then, its ending is that of `Resident::call`, with
    /// all fuel that it has used, and so is the instance; else it has used exactly so many units more, and some are left. No memory is taken.
    pub fn go_on(self, units: u64) -> Going
        requires { 1 ≤ units }
        ensures { CallGoesOn self units result }
    {
        match self.kept.place {
            CallPlace::Import(function, _) => self.ask(function),
            CallPlace::Inside(paused) => self.run(paused, units),
        }
    }

    /// Goes on so, and writes the results of a call that returns to the first of the places that are lent, at least as many as its function has.
    #[inline(always)]
    pub fn go_on_into(self, units: u64, results: &mut [Value]) -> BareGoing
        requires units { 1 ≤ units }
        requires room { result_count self.loaded.contents self.function ≤ length results.old }
        ensures { CallGoesOn self units (whole_going self.loaded.contents self.function result results.new) }
    {
        match self.kept.place {
            CallPlace::Import(function, _) => self.ask_into(function, results),
            CallPlace::Inside(paused) => self.run_into(paused, units, results),
        }
    }

    /// Where the call stands, once something of it has run: there a call with just so much fuel as it has used is over as spent.
    pub fn stop(&self) -> Option<Stop<'_>>
        ensures { CallStandsAt self.now result }
    {
        let kept = &*self.kept;
        match kept.place {
            CallPlace::Import(_, _) => None,
            CallPlace::Inside(paused) => kept.machine.stop(&paused),
        }
    }

    /// How many results its function has.
    pub fn results(&self) -> usize
        ensures { result ≡ result_count self.now.loaded.contents self.now.function }
    {
        result_count(self.kept.linked.valid(), self.kept.place.function())
    }

    /// Its module.
    pub fn linked(&self) -> &Linked
        ensures { result.now ≡ self.now.loaded }
    {
        &self.kept.linked
    }

    /// The bytes of its module.
    pub fn module_bytes(&self) -> &[u8]
        ensures { result.now ≡ self.now.loaded.bytes }
    {
        self.kept.linked.valid().module().bytes()
    }

    /// Its instance as it stands: as a call with just so much fuel as this one has used leaves it.
    pub fn store(&self) -> &State
        ensures value { result.now ≡ self.now.store }
        ensures stands { (stop : Option Halt) × CallStandsAt self.now stop }
    {
        &self.kept.state
    }

    /// Ends the call where it stands: as spent, with the fuel that it has used. The instance is left as a call with just so much fuel leaves it,
    /// stops where the call stood, and may be called again. Where nothing of the call has run, it stops nowhere.
    pub fn end(self) -> (Resident, Ended)
        ensures { EndsCall self result.0 result.1 }
    {
        let Calling { kept } = self;
        let mut kept = kept;
        let InstanceRoom {
            linked: _,
            state: _,
            machine,
            place,
        } = &mut *kept;
        let used = give_up(machine, place);
        let ended = Ended {
            ending: Ending::Spent,
            used,
        };
        (Resident::of(kept), ended)
    }

    /// Asks the import of which it is.
    fn ask(self, function: u32) -> Going
        requires place { self.place ≡ None }
        requires function { self.function ≡ function }
        ensures { (units : ℕ) → CallGoesOn self units result }
    {
        let Calling { kept } = self;
        let mut kept = kept;
        let ended = returned(answer(kept.linked.valid(), function));
        kept.machine.last = None;
        Going::Over(Resident::of(kept), ended)
    }

    /// Asks it, and writes its answer to the first place.
    fn ask_into(self, function: u32, results: &mut [Value]) -> BareGoing
        requires place { self.place ≡ None }
        requires function { self.function ≡ function }
        requires room { result_count self.loaded.contents function ≤ length results.old }
        ensures { (units : ℕ) → CallGoesOn self units (whole_going self.loaded.contents self.function result results.new) }
    {
        let Calling { kept } = self;
        let mut kept = kept;
        place_answer(answer(kept.linked.valid(), function), results);
        kept.machine.last = None;
        let ended = BareEnded {
            ending: BareEnding::Return,
            used: 0,
        };
        BareGoing::Over(Resident::of(kept), ended)
    }

    /// Goes on with a function of the module, from this place.
    fn run(self, paused: Paused, units: u64) -> Going
        requires units { 1 ≤ units }
        requires place { self.place ≡ Some paused }
        ensures { CallGoesOn self units result }
    {
        let Calling { kept } = self;
        let mut kept = kept;
        let InstanceRoom {
            linked,
            state,
            machine,
            place,
        } = &mut *kept;
        let mut slice = Slice { paused, units };
        match go_on_call(machine, linked.valid(), state, &mut slice) {
            Some(ended) => Going::Over(Resident::of(kept), ended),
            None => {
                *place = CallPlace::Inside(slice.paused);
                Going::Paused(Calling { kept })
            }
        }
    }

    /// Goes on so, and writes its results to the first of the places that are lent.
    #[inline(always)]
    fn run_into(self, paused: Paused, units: u64, results: &mut [Value]) -> BareGoing
        requires units { 1 ≤ units }
        requires place { self.place ≡ Some paused }
        requires room { result_count self.loaded.contents paused.function ≤ length results.old }
        ensures { CallGoesOn self units (whole_going self.loaded.contents self.function result results.new) }
    {
        let Calling { kept } = self;
        let mut kept = kept;
        let InstanceRoom {
            linked,
            state,
            machine,
            place,
        } = &mut *kept;
        let mut slice = Slice { paused, units };
        match go_on_call_into(machine, linked.valid(), state, &mut slice, results) {
            Some(ended) => BareGoing::Over(Resident::of(kept), ended),
            None => {
                *place = CallPlace::Inside(slice.paused);
                BareGoing::Paused(Calling { kept })
            }
        }
    }
}
