//! A step in slices.

ghost use Rattle.std.specs.Prelude.{◌≡◌, ◌≤◌, false, List, IfOk, IfErr};
ghost use Rattle.events.specs.declared.did.StepDid.{StepDid as Did};
ghost use Rattle.interp.specs.Machines.{MachineFits};
ghost use Rattle.phases.specs.Guests.{GuestCall};
ghost use Rattle.phases.specs.Inner.Preparing.{CanCallBack, RunsCallback};
ghost use Rattle.phases.specs.Outside.{is_failed};
ghost use Rattle.phases.specs.Slices.{StepBegins, StepGoesOn};
ghost use Rattle.phases.specs.State.{Core, Loop};
ghost use Rattle.phases.specs.Step.{StepsWith};
ghost use Rattle.phases.specs.Underway.{StepHasCome, used_by_step};

use crate::callback::{Prepared, PreparedCallback};
use crate::loop_core::LoopCore;
use crate::machine::LoopMachine;
use crate::shared::Shared;
use events::did::StepDid;
use events::phase::EntryKind;
use imports::Linked;
use instance::state::State;
use interp::machine::Machine;
use interp::slices::{Paused, Slice};
use order::laws::imports_are_named;
use order::{RefusedMemory, reserve_machine};
use std::alloc::Global;
use std::marker::Model;
use std::sync::Arc;

/// A step whose callback is under way, between two slices, with its loop: nothing else can be done with that. It may be kept, given to
/// another thread, or dropped at any time.
#[derive(Drop)]
pub struct Stepping<B: Shared + Drop> {
    linked: Arc<Linked, Global>,
    machine: LoopMachine<B>,
    kind: EntryKind,
    number: u32,
    paused: Paused,
}

impl<B: Shared + Drop> Model for Stepping<B> {
    ghost use Rattle.std.specs.Coded.{codes};
    ghost use Rattle.handles.specs.Inner.Codes.{table_code};
    ghost use Rattle.phases.specs.Inner.Codes.{roster_code, requests_code};
    ghost use Rattle.syntax.specs.Loaded.{loaded_coded};
    ghost use Rattle.phases.specs.Underway.{StepInSlices};
    ghost use Rattle.phases.specs.Inner.Underway.{step_in_slices, IsStepping};
    ghost use Rattle.std.specs.Arc.{arc_value};

    ghost Value = { StepInSlices B };

    ghost coded = { Prim.hlevel (codes, loaded_coded, roster_code, requests_code, B.code) };

    ghost view = { λ a. step_in_slices (arc_value a.linked) a.kind a.number a.machine a.paused };

    ghost invariant = { λ a. IsStepping (arc_value a.linked) a.kind a.number a.machine a.paused };
}

/// What a slice leaves of a step.
#[derive(Drop)]
pub enum StepSlice<B: Shared + Drop> {
    /// It is over: the loop, and what the step did.
    Over(LoopCore<B>, StepDid),
    /// It goes on from here.
    Paused(Stepping<B>),
}

impl<B: Shared + Drop> LoopCore<B> {
    /// Begins a step, to be made in slices. It is over at once where no callback runs; else the callback begins, and nothing of it runs yet.
    /// All memory that it takes is taken here; only where that is refused does the loop come back.
    pub fn begin_step(self) -> Result<StepSlice<B>, (Self, RefusedMemory)>
        ensures begun { IfOk result (StepBegins B.calls self) }
        ensures refused { IfErr result (λ back. back.0 ≡ self) }
    {
        let reserved = match reserve_machine(self.host.alloc, self.linked.valid()) {
            Ok(reserved) => reserved,
            Err(refused) => return Err((self, refused)),
        };
        let mut core = self;
        match core.prepare() {
            Prepared::Did(did) => Ok(StepSlice::Over(core, did.whole())),
            Prepared::Runs(callback) => Ok(StepSlice::Paused(core.call_back(reserved, callback))),
        }
    }

    /// Begins a callback in what was reserved for it.
    fn call_back(self, reserved: Machine, callback: PreparedCallback) -> Stepping<B>
        requires runs { MachineFits self.setting.loaded.contents reserved }
        requires fits { CanCallBack self.setting.loaded.contents callback }
        requires unfailed { is_failed self.loop.state.status ≡ false }
        ensures come { (a : Core B) → a.setting ≡ self.setting
            → ((did : Did) (made : List GuestCall) (new : Loop B) → RunsCallback B.calls a.setting self.loop callback did made new → StepsWith B.calls a.setting a.loop did made new)
            → StepHasCome B.calls a result }
        ensures used { used_by_step result ≡ 0 }
        ensures copied { result.copied ≡ 0 }
    {
        let (linked, store, host) = self.into_parts();
        let PreparedCallback {
            kind,
            number,
            function,
            args,
            reply,
        } = callback;
        imports_are_named(&linked);
        let mut host = host;
        host.state.begin_callback(reply);
        host.copied = 0;
        let mut machine = LoopMachine {
            store,
            host,
            machine: reserved,
        };
        let paused = machine.begin(linked.valid(), function, args.as_slice());
        Stepping {
            linked,
            machine,
            kind,
            number,
            paused,
        }
    }
}

impl<B: Shared + Drop> Stepping<B> {
    /// Goes on for at most so many units of fuel, at least one. Where the step is over then, loop and answer are those of `LoopCore::step`;
    /// else its callback has used so many units more, and some are left. Each `UNIT_BYTES` bytes that it copies may count as a unit here: then
    /// it has used fewer, at least one. No memory is taken.
    pub fn go_on(self, units: u64) -> StepSlice<B>
        requires { 1 ≤ units }
        ensures { StepGoesOn B.calls self units result }
    {
        let Stepping {
            linked,
            machine,
            kind,
            number,
            paused,
        } = self;
        let mut machine = machine;
        let mut slice = Slice { paused, units };
        match machine.go_on(linked.valid(), &mut slice) {
            Some(ended) => {
                let (core, did) = machine.over(linked, ended, kind, number);
                StepSlice::Over(core, did.whole())
            }
            None => StepSlice::Paused(Stepping {
                linked,
                machine,
                kind,
                number,
                paused: slice.paused,
            }),
        }
    }

    /// Its module.
    pub fn linked(&self) -> &Linked
        ensures { result.now ≡ self.now.loaded }
    {
        &self.linked
    }

    /// Its instance as it stands.
    pub fn store(&self) -> &State
        ensures { result.now ≡ self.now.loop.store }
    {
        &self.machine.store
    }

    /// The units of fuel that its callback has used.
    pub fn used(&self) -> u64
        ensures { result ≡ used_by_step self.now }
    {
        self.paused.used()
    }
}
