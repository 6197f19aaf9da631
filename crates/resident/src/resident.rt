// An instance of a module that is kept from call to call.

ghost use Rattle.std.specs.Prelude.{◌≡◌, ◌≤◌, ◌↔◌, length, true, false, Some, None, IfOk, IfSome, IsTrue, MatchOption};
ghost use Rattle.std.specs.Arc.{arc_value};
ghost use Rattle.limits.specs.declared.TheConstants.{MAX_DEPTH, MAX_RESULTS};
ghost use Rattle.valid.specs.Typing.{HasFunctionType};
ghost use Rattle.instance.specs.Store.{bytes_at, memory_of, with_memory_instance};
ghost use Rattle.instance.specs.Reads.{WritesAt};
ghost use Rattle.instance.specs.Fresh.{IsFresh};
ghost use Rattle.instance.specs.Storing.{IsStoreOf};
ghost use Rattle.reduction.specs.Hosting.{Names};
ghost use Rattle.reduction.specs.Invoking.{TakesArguments, ReturnsTyped};
ghost use Rattle.reduction.specs.Leading.{Leads, calling, scene};
ghost use Rattle.interp.specs.Lent.{result_count, ended_in};
ghost use Rattle.resident.specs.Inner.Going.{at_rest, IsResting};
ghost use Rattle.resident.specs.Numbered.{HasNoType, ExportsAt, ExportsNoFunctionAt};
ghost use Rattle.resident.specs.Calls.{CallsInstance, IsNew, StartsInstance, ExportsFirst, ExportsNoFunction, ExportsGlobal, ExportsNoGlobal};

use crate::exported::{exported_function, exported_global, function_at, type_of};
use crate::kept::{CallPlace, InstanceRoom};
use crate::no_host::NoHost;
use events::ended::{BareEnded, Ended, Ending};
use events::values::Values;
use imports::Linked;
use instance::fault::InstFault;
use instance::stack::Stop;
use instance::state::{Instance, State};
use interp::call::FunctionCall;
use interp::conditions::takes_arguments;
use interp::host::Host;
use interp::invoke::ended_with;
use interp::machine::Machine;
use limits::MAX_RESULTS;
use std::alloc::{AllocError, Global};
use std::marker::Model;
use std::sync::Arc;
use syntax::contents::FuncType;
use syntax::types::Value;
use valid::{Valid, type_of_function};

/// An instance of a module that is kept from call to call, with its module. Every import answers -1.
#[derive(Drop)]
pub struct Resident {
    kept: Box<InstanceRoom, Global>,
}

impl Model for Resident {
    ghost use Rattle.std.specs.Coded.{codes};
    ghost use Rattle.std.specs.Arc.{arc_value};
    ghost use Rattle.syntax.specs.Loaded.{loaded_coded};
    ghost use Rattle.resident.specs.Calls.{KeptInstance};
    ghost use Rattle.resident.specs.Inner.Going.{at_rest, IsResting};

    ghost Value = { KeptInstance };

    ghost coded = { Prim.hlevel (codes, loaded_coded) };

    ghost view = { λ r. at_rest (arc_value r.kept.value.linked) r.kept.value.state r.kept.value.machine };

    ghost invariant = { λ r. IsResting (arc_value r.kept.value.linked) r.kept.value.state r.kept.value.machine };
}

/// A new instance.
fn new_instance(alloc: Global, linked: &Linked) -> Result<Instance, AllocError>
    ensures fresh { IfOk result (λ i. IsFresh linked.now.contents i.state) }
    ensures store { IfOk result (λ i. IsStoreOf linked.now.contents i.state) }
    ensures stop { IfOk result (λ i. i.stack ≡ None) }
{
    match Instance::new(alloc, linked.valid()) {
        Ok(instance) => Ok(instance),
        Err(InstFault::Memory) => Err(AllocError),
        Err(_) => unreachable!(),
    }
}

/// How many results a function has: no more than there may be.
pub(crate) fn result_count(valid: &Valid, function: u32) -> usize
    ensures count { result ≡ result_count valid.now.contents function }
    ensures few { result ≤ MAX_RESULTS }
{
    match type_of_function(valid.contents(), function) {
        Some(func_type) => func_type.results.len(),
        None => 0,
    }
}

impl Resident {
    /// A new instance of a module, before its start function. All memory that it ever takes is taken here.
    pub fn new(alloc: Global, linked: Arc<Linked, Global>) -> Result<Resident, AllocError>
        ensures { IfOk result (IsNew (arc_value linked)) }
    {
        let (state, stack) = new_instance(alloc, &linked)?.into_parts();
        let machine = Machine::of(linked.valid(), stack)?;
        let kept = InstanceRoom {
            linked,
            state,
            machine,
            place: CallPlace::Import(0, 0),
        };
        Ok(Resident {
            kept: Box::new(alloc, kept)?,
        })
    }

    /// The function that is exported under a name, with its type, where there is one.
    pub fn function(&self, name: &[u8]) -> Option<(u32, &FuncType)>
        ensures named { MatchOption result (ExportsNoFunction self.now.loaded.contents name.now) (λ found. ExportsFirst self.now.loaded.contents name.now found.0) }
        ensures typed { IfSome result (λ found. HasFunctionType self.now.loaded.contents found.0 found.1.now) }
    {
        exported_function(self.kept.linked.valid(), name)
    }

    /// The function that the export of this number is, with its type, where there is one.
    pub fn function_at(&self, number: usize) -> Option<(u32, &FuncType)>
        ensures numbered { MatchOption result (ExportsNoFunctionAt self.now.loaded.contents number) (λ found. ExportsAt self.now.loaded.contents number found.0) }
        ensures typed { IfSome result (λ found. HasFunctionType self.now.loaded.contents found.0 found.1.now) }
    {
        function_at(self.kept.linked.valid(), number)
    }

    /// The type of a function of its module, where there is one.
    pub fn type_of(&self, function: u32) -> Option<&FuncType>
        ensures { MatchOption result (HasNoType self.now.loaded.contents function) (λ found. HasFunctionType self.now.loaded.contents function found.now) }
    {
        type_of(self.kept.linked.valid(), function)
    }

    /// Whether the module has this function, and it takes these arguments.
    pub fn takes(&self, function: u32, args: &[Value]) -> bool
        ensures { IsTrue result ↔ TakesArguments self.now.loaded.contents function args.now }
    {
        takes_arguments(self.kept.linked.valid(), function, args)
    }

    /// An instance that is in no call.
    pub(crate) fn of(kept: Box<InstanceRoom, Global>) -> Resident
        requires { IsResting (arc_value kept.value.linked) kept.value.state kept.value.machine }
        ensures { result ≡ at_rest (arc_value kept.value.linked) kept.value.state kept.value.machine }
    {
        Resident { kept }
    }

    /// Its parts.
    pub(crate) fn into_kept(self) -> Box<InstanceRoom, Global>
        ensures same { self ≡ at_rest (arc_value result.value.linked) result.value.state result.value.machine }
        ensures at_rest { IsResting (arc_value result.value.linked) result.value.state result.value.machine }
    {
        let Resident { kept } = self;
        kept
    }

    /// Calls a function with these arguments and so much fuel, while at most so many calls stand open. However it ends, the instance
    /// stays as it is then, and may be called again.
    pub fn call(&mut self, function: u32, args: &[Value], fuel: u64, depth: u32) -> Ended
        requires typed { TakesArguments self.old.loaded.contents function args.now }
        requires depth { (1 ≤ depth) × (depth ≤ MAX_DEPTH) }
        ensures { CallsInstance self.old depth fuel function args.now result self.new }
    {
        let count = result_count(self.kept.linked.valid(), function);
        let mut places = [Value::I32(0); MAX_RESULTS];
        let ended = self.call_into(function, args, fuel, depth, &mut places);
        ended_with(ended, &places[..count])
    }

    /// Does what `call` does, and writes the results to the first of the places that are lent, at least as many as the function has. So no
    /// room for more results is filled with zeros and copied. It has a copy of the loop inlined, so all callers share it.
    #[inline(never)]
    pub fn call_into(
        &mut self,
        function: u32,
        args: &[Value],
        fuel: u64,
        depth: u32,
        results: &mut [Value],
    ) -> BareEnded
        requires typed { TakesArguments self.old.loaded.contents function args.now }
        requires room { result_count self.old.loaded.contents function ≤ length results.old }
        requires depth { (1 ≤ depth) × (depth ≤ MAX_DEPTH) }
        ensures { CallsInstance self.old depth fuel function args.now (ended_in self.old.loaded.contents function result results.new) self.new }
    {
        let InstanceRoom {
            linked,
            state,
            machine,
            place: _,
        } = &mut *self.kept;
        let valid = linked.valid();
        let mut host = NoHost::new(valid);
        let call = FunctionCall {
            function,
            args,
            fuel,
            depth,
        };
        machine.call_lent(valid, state, &mut host, results, &call)
    }

    /// Calls a function as `call` does, while this host answers the imports.
    pub fn call_over<H: Host>(
        &mut self,
        host: &mut H,
        function: u32,
        args: &[Value],
        fuel: u64,
        depth: u32,
    ) -> Ended
        requires names { Names self.old.loaded.contents (H.types host.old) }
        requires typed { TakesArguments self.old.loaded.contents function args.now }
        requires depth { (1 ≤ depth) × (depth ≤ MAX_DEPTH) }
        ensures runs { Leads H.moves (calling self.old.loaded.contents function args.now fuel depth) (scene self.old.store host.old)
            result self.new.stop (scene self.new.store host.new) }
        ensures within { result.used ≤ fuel }
        ensures results { ReturnsTyped self.old.loaded.contents function result.ending }
        ensures module { self.new.loaded ≡ self.old.loaded }
    {
        let InstanceRoom {
            linked,
            state,
            machine,
            place: _,
        } = &mut *self.kept;
        let valid = linked.valid();
        let count = result_count(valid, function);
        let mut places = [Value::I32(0); MAX_RESULTS];
        let call = FunctionCall {
            function,
            args,
            fuel,
            depth,
        };
        let ended = machine.call_lent(valid, state, host, &mut places, &call);
        ended_with(ended, &places[..count])
    }

    /// Runs the start function, where there is one.
    pub fn start(&mut self, fuel: u64, depth: u32) -> Ended
        requires { (1 ≤ depth) × (depth ≤ MAX_DEPTH) }
        ensures { StartsInstance self.old depth fuel result self.new }
    {
        match self.kept.linked.valid().contents().start {
            Some(function) => self.call(function, &[], fuel, depth),
            None => Ended {
                ending: Ending::Return(Values::empty()),
                used: 0,
            },
        }
    }

    /// The value of the global that is exported under a name, where there is one.
    pub fn global(&self, name: &[u8]) -> Option<Value>
        ensures { MatchOption result (ExportsNoGlobal self.now.loaded.contents name.now self.now.store.globals) (ExportsGlobal self.now.loaded.contents name.now self.now.store.globals) }
    {
        exported_global(self.kept.linked.valid(), &self.kept.state, name)
    }

    /// Its module.
    pub fn linked(&self) -> &Linked
        ensures { result.now ≡ self.now.loaded }
    {
        &self.kept.linked
    }

    /// A share of its module. An error comes where it has as many shares as can be counted.
    pub fn share_module(&self) -> Result<Arc<Linked, Global>, AllocError>
        ensures { IfOk result (λ m. arc_value m ≡ self.now.loaded) }
    {
        Arc::try_clone(&self.kept.linked)
    }

    /// Its instance as the last call left it, however that ended.
    pub fn store(&self) -> &State
        ensures { result.now ≡ self.now.store }
    {
        &self.kept.state
    }

    /// The bytes of its module.
    pub fn module_bytes(&self) -> &[u8]
        ensures { result.now ≡ self.now.loaded.bytes }
    {
        self.kept.linked.valid().module().bytes()
    }

    /// How many bytes the memory has.
    pub fn size(&self) -> usize
        ensures { result ≡ length self.now.store.memory }
    {
        self.kept.state.memory().len()
    }

    /// Copies the bytes of the memory from an address on, as many as there is room for. False, and nothing is copied, where they are
    /// not all there.
    pub fn read(&self, at: usize, into: &mut [u8]) -> bool
        ensures found { result ≡ true → bytes_at at (length into.old) self.now.store.memory ≡ Some into.new }
        ensures missing { result ≡ false → bytes_at at (length into.old) self.now.store.memory ≡ None }
        ensures same { result ≡ false → into.new ≡ into.old }
    {
        self.kept.state.memory().read_into(at, into)
    }

    /// Writes bytes to the memory from an address on. False, and nothing is changed, where they don't all fit.
    pub fn write(&mut self, at: usize, bytes: &[u8]) -> bool
        ensures wrote { WritesAt at bytes.now result (memory_of self.old.store) (memory_of self.new.store) }
        ensures rest { self.new.store ≡ with_memory_instance (memory_of self.new.store) self.old.store }
        ensures module { self.new.loaded ≡ self.old.loaded }
        ensures stop { self.new.stop ≡ self.old.stop }
    {
        self.kept.state.memory_mut().write(at, bytes)
    }

    /// Where the last call stopped, unless it returned.
    pub fn last_stop(&self) -> Option<Stop<'_>>
        ensures { result ≡ self.now.stop }
    {
        self.kept.machine.last_stop()
    }
}
