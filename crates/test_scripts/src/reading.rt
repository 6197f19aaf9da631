// What scripts are read as.

use crate::telling::{check_told, shows};
use script::{Plan, ScriptFault, read};
use std::alloc::{AllocError, Global};
use std::test::Fail;

fn plan_told(alloc: Global, plan: &Plan) -> Result<String, AllocError> {
    format!(in alloc; "{plan:?}")
}

/// What this script is read as.
fn plan_of(alloc: Global, text: &str) -> Result<String, Fail> {
    let plan = read(alloc, text)?;
    Ok(plan_told(alloc, &plan)?)
}

/// Escapes, keys in another order, and every step.
const EVERY_STEP: &str = "{\"modules\":[\"0061736d\",\"F\\u0066\"],\n\
    \"loops\" : [ {\"depth\":8, \"module\":1, \"f\\u0075el\":18446744073709551615, \"work_fuel\":0} ],\t\
    \"st\\u0065ps\":[[\"l\\u006fop\",0],[\"post\",1],[\"take\",2],[\"start\",3],[\"finish\",4],\
    [\"collect\",5],[\"send\",6,7],[\"cancel\",8,9],[\"clock\",4294967295,10]],\"workers\":16}";

/// What it is read as.
const PLAN: &str =
    "Plan { modules: [[0, 97, 115, 109], [255]], loops: [LoopPlan { module: 1, settings: \
    LoopSettings { fuel: 18446744073709551615, work_fuel: 0, depth: 8 } }], workers: 16, steps: \
    [Loop(0), Post(1), Take(2), Start(3), Finish(4), Collect(5), Send(6, 7), Cancel(8, 9), \
    Clock(4294967295, 10)] }";

#[test]
fn reads_every_step(rt: HostRuntime) -> Result<(), Fail> {
    let plan = plan_of(rt.alloc(), EVERY_STEP)?;
    check_told(&rt, plan.as_str(), PLAN);
    Ok(())
}

/// A script of so many steps.
fn script_of(alloc: Global, count: usize) -> Result<String, AllocError> {
    let steps = "[\"loop\",0],".repeat(alloc, count)?;
    format!(in alloc;
        "{{\"modules\":[\"\"],\"loops\":[{{\"module\":0,\"fuel\":1,\"work_fuel\":1,\"depth\":1}}],\
        \"workers\":0,\"steps\":[{steps}[\"loop\",0]]}}"
    )
}

/// The fault of a script of so many steps and one more, if it has one.
fn fault_of(alloc: Global, count: usize) -> Result<Option<ScriptFault>, AllocError> {
    let text = script_of(alloc, count)?;
    Ok(read(alloc, text.as_str()).err())
}

#[test]
fn takes_65536_steps(rt: HostRuntime) -> Result<(), Fail> {
    shows(&rt, fault_of(rt.alloc(), 65_535)?, None);
    shows(&rt, fault_of(rt.alloc(), 65_536)?, Some(ScriptFault::Range));
    Ok(())
}
