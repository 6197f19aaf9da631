// What a new loop is made of.

ghost use Rattle.std.specs.Prelude.{◌≡◌, IfOk};
ghost use Rattle.instance.specs.Fresh.{IsFresh};
ghost use Rattle.instance.specs.Storing.{IsStoreOf};
ghost use Rattle.phases.specs.PhaseList.{begin_list};
ghost use Rattle.phases.specs.Roster.{opening_roster};
ghost use Rattle.phases.specs.State.{opening};

use crate::callbacks::callbacks_of;
use crate::loop_state::LoopState;
use handles::Handles;
use imports::{EntryPoint, Linked};
use instance::fault::InstFault;
use instance::state::Instance;
use std::alloc::{AllocError, Global};

/// A new instance of a module, and the state of a loop over it that has done nothing.
pub fn opened(alloc: Global, linked: &Linked) -> Result<(Instance, LoopState), AllocError>
    ensures fresh { IfOk result (λ made. IsFresh linked.now.contents made.0.state) }
    ensures store { IfOk result (λ made. IsStoreOf linked.now.contents made.0.state) }
    ensures state { IfOk result (λ made. made.1 ≡ opening (opening_roster linked.now.contents) (begin_list linked.now.contents)) }
{
    let instance = instance_of(alloc, linked)?;
    let state = machine_of(alloc, linked, &instance)?;
    Ok((instance, state))
}

fn instance_of(alloc: Global, linked: &Linked) -> Result<Instance, AllocError>
    ensures fresh { IfOk result (λ instance. IsFresh linked.now.contents instance.state) }
    ensures store { IfOk result (λ instance. IsStoreOf linked.now.contents instance.state) }
{
    match Instance::new(alloc, linked.valid()) {
        Ok(instance) => Ok(instance),
        Err(InstFault::Memory) => Err(AllocError),
        Err(_) => unreachable!(),
    }
}

fn machine_of(alloc: Global, linked: &Linked, instance: &Instance) -> Result<LoopState, AllocError>
    requires { IsFresh linked.now.contents instance.now.state }
    ensures { IfOk result (λ made. made ≡ opening (opening_roster linked.now.contents) (begin_list linked.now.contents)) }
{
    let contents = linked.valid().contents();
    // what each turn reads is taken last, so that it lies in few pages
    let handles = Handles::new(alloc)?;
    let callbacks = callbacks_of(alloc, contents, instance)?;
    let start = contents.start.is_some();
    let main = linked.entry(EntryPoint::Main).is_some();
    LoopState::new(alloc, handles, callbacks, start, main)
}
