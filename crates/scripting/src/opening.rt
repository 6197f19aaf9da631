// From what a script asks for to its world.

ghost use Rattle.std.specs.Prelude.{◌≡◌, All, IfOk, ℕ, length, map};
ghost use Rattle.std.specs.Arc.{arc_value};
ghost use Rattle.script.specs.Limits.{IsWithinLimits, IsLoopWithinLimits};
ghost use Rattle.world.specs.Making.{HasDepth, setting_from, settings_from};
ghost use Rattle.scripting.specs.Opening.{IsAcceptedModule, bytes_loaded, IsPlanned, ArePlanned, IsWorldOf};

use crate::failure::ScriptFailure;
use files::IoFault;
use imports::Linked;
use loader::load;
use script::{LoopPlan, Plan};
use std::alloc::{AllocError, Global};
use std::sync::Arc;
use world::{Config, LoopConfig, World};

/// The module of this number, of these bytes, validated and linked.
fn module_of(
    alloc: Global,
    number: usize,
    bytes: &[u8],
) -> Result<Arc<Linked, Global>, ScriptFailure>
    ensures same { IfOk result (λ linked. bytes_loaded (arc_value linked) ≡ bytes.now) }
    ensures accepted { IfOk result (λ linked. IsAcceptedModule (arc_value linked)) }
{
    match load(alloc, bytes) {
        Ok(linked) => Ok(Arc::new(alloc, linked)?),
        Err(refusal) => Err(ScriptFailure::refused(alloc, number, bytes, refusal)),
    }
}

/// The modules, each read, validated and linked.
fn modules_of(alloc: Global, texts: &[Vec<u8>]) -> Result<Vec<Arc<Linked, Global>>, ScriptFailure>
    ensures same { IfOk result (λ linked. map bytes_loaded (map arc_value linked.items) ≡ map (λ t. t.items) texts.now) }
    ensures accepted { IfOk result (λ linked. All IsAcceptedModule (map arc_value linked.items)) }
{
    let mut linked = Vec::new(alloc);
    for number in 0..texts.len() {
        let module = module_of(alloc, number, texts[number].as_slice())?;
        linked.push(module)?;
    }
    Ok(linked)
}

/// A loop, with its module.
fn loop_of(modules: &[Arc<Linked, Global>], planned: &LoopPlan) -> Result<LoopConfig, AllocError>
    requires { IsLoopWithinLimits (length modules.now) planned.now }
    ensures depth { IfOk result HasDepth }
    ensures planned { IfOk result (λ config. (n : ℕ) → IsPlanned (map arc_value modules.now) n planned.now (setting_from n config)) }
{
    Ok(LoopConfig {
        linked: Arc::try_clone(&modules[planned.module as usize])?,
        settings: planned.settings,
    })
}

/// The loops, each with its module.
fn loops_of(
    alloc: Global,
    modules: &[Arc<Linked, Global>],
    planned: &[LoopPlan],
) -> Result<Vec<LoopConfig>, AllocError>
    requires { All (IsLoopWithinLimits (length modules.now)) planned.now }
    ensures count { IfOk result (λ loops. length loops.items ≡ length planned.now) }
    ensures depths { IfOk result (λ loops. All HasDepth loops.items) }
    ensures planned { IfOk result (λ loops. ArePlanned (map arc_value modules.now) 0 planned.now (settings_from 0 loops.items)) }
{
    let mut loops = Vec::new(alloc);
    for plan in planned {
        loops.push(loop_of(modules, plan)?)?;
    }
    Ok(loops)
}

/// The world that the plan asks for.
pub fn world_of(alloc: Global, plan: &Plan) -> Result<World, ScriptFailure>
    requires { IsWithinLimits plan.now }
    ensures { IfOk result (λ world. IsWorldOf plan.now world) }
{
    let modules = modules_of(alloc, plan.modules.as_slice())?;
    let loops = loops_of(alloc, modules.as_slice(), plan.loops.as_slice())?;
    let config = Config {
        loops,
        workers: plan.workers,
    };
    match World::new(alloc, config) {
        Ok(world) => Ok(world),
        // it is refused only if memory runs out
        Err(_) => Err(ScriptFailure::Io(IoFault::Memory)),
    }
}
