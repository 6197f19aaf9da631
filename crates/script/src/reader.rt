// From a script's text to its plan.

ghost use Rattle.std.specs.Prelude.{IfOk, IfErr, OnOk};
ghost use Rattle.script.specs.Fault.{IsJson, FaultSays, IsOfJson};
ghost use Rattle.script.specs.Limits.{IsWithinLimits};

use crate::document::{Document, LoopDocument, Object, Ranged};
use crate::fault::ScriptFault;
use crate::plan::{LoopPlan, Plan};
use events::settings::LoopSettings;
use hex::FromHexError;
use json::Scratch;
use std::alloc::{AllocError, Global};
use world_log::Step;

/// Reads a script: one JSON object with the keys `modules`, `loops`, `workers` and `steps`.
///
/// Of several faults the one with the lowest number is reported, but memory may run out before that.
pub fn read(alloc: Global, text: &str) -> Result<Plan, ScriptFault>
    ensures limits { IfOk result (λ plan. IsWithinLimits plan) }
    ensures json { OnOk result (IsJson text.now) }
    ensures fault { IfErr result (λ e. FaultSays text.now e) }
{
    check_json(alloc, text)?;
    let document = parse(alloc, text)?;
    let plan = Plan {
        modules: decode_modules(alloc, &document.modules)?,
        loops: plan_loops(alloc, &document.loops)?,
        workers: in_range(document.workers)?,
        steps: plan_steps(alloc, &document.steps)?,
    };
    if !plan.is_within_limits() {
        return Err(ScriptFault::Range);
    }
    Ok(plan)
}

/// The whole text has to be JSON before its shape is looked at.
fn check_json(alloc: Global, text: &str) -> Result<(), ScriptFault>
    ensures json { OnOk result (IsJson text.now) }
    ensures fault { IfErr result (λ e. FaultSays text.now e) }
{
    let mut scratch = Scratch::new(alloc);
    match json::is_valid(text, &mut scratch) {
        Ok(true) => Ok(()),
        Ok(false) => Err(ScriptFault::Json),
        Err(AllocError) => Err(ScriptFault::Memory),
    }
}

fn parse(alloc: Global, text: &str) -> Result<Document, ScriptFault>
    ensures { IfErr result (λ e. IsOfJson e) }
{
    match serde_json::from_str::<Object<Document>>(alloc, text) {
        Ok(document) => Ok(document.0),
        Err(error) if error.is_memory() => Err(ScriptFault::Memory),
        Err(_) => Err(ScriptFault::Shape),
    }
}

fn decode_modules(alloc: Global, texts: &[String]) -> Result<Vec<Vec<u8>>, ScriptFault>
    ensures { IfErr result (λ e. IsOfJson e) }
{
    let mut modules = Vec::new(alloc);
    for text in texts {
        let bytes = hex::decode(alloc, text.as_str()).map_err(|error| match error {
            FromHexError::OutOfMemory => ScriptFault::Memory,
            _ => ScriptFault::Hex,
        })?;
        modules.push(bytes)?;
    }
    Ok(modules)
}

fn plan_loops(
    alloc: Global,
    documents: &[Object<LoopDocument>],
) -> Result<Vec<LoopPlan>, ScriptFault>
    ensures { IfErr result (λ e. IsOfJson e) }
{
    let mut loops = Vec::new(alloc);
    for Object(document) in documents {
        loops.push(LoopPlan {
            module: in_range(document.module)?,
            settings: LoopSettings {
                fuel: in_range(document.fuel)?,
                work_fuel: in_range(document.work_fuel)?,
                depth: in_range(document.depth)?,
            },
        })?;
    }
    Ok(loops)
}

fn plan_steps(alloc: Global, documents: &[Ranged<Step>]) -> Result<Vec<Step>, ScriptFault>
    ensures { IfErr result (λ e. IsOfJson e) }
{
    let mut steps = Vec::new(alloc);
    for document in documents {
        steps.push(in_range(*document)?)?;
    }
    Ok(steps)
}

fn in_range<T: Drop>(ranged: Ranged<T>) -> Result<T, ScriptFault>
    ensures { IfErr result (λ e. IsOfJson e) }
{
    ranged.0.ok_or(ScriptFault::Range)
}
