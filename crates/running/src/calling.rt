// A call of a function on a new instance of its module.

ghost use Rattle.std.specs.Prelude.{◌≤◌, ◌↔◌, IfOk, IsTrue};
ghost use Rattle.std.specs.Arc.{arc_value};
ghost use Rattle.limits.specs.declared.TheConstants.{MAX_DEPTH};
ghost use Rattle.reduction.specs.Invoking.{TakesArguments};
ghost use Rattle.resident.specs.Calls.{HasReturned};
ghost use Rattle.running.specs.Calling.{IsCalled};

use crate::failure::Failure;
use events::ended::{Ended, Ending};
use imports::Linked;
use resident::Resident;
use std::alloc::Global;
use std::sync::Arc;
use syntax::types::Value;

/// The outcome of a call.
#[derive(Debug, Drop)]
pub enum Called {
    /// The start function did not return, but ended so; the function is not called.
    Start(Ended),
    /// The function ended so.
    Function(Ended),
}

/// Whether a call returned.
pub fn has_returned(ending: &Ending) -> bool
    ensures { IsTrue result ↔ HasReturned ending.now }
{
    matches!(ending, Ending::Return(_))
}

/// Calls a function on a new instance of its module. The start function runs first; if it returns, the function gets the fuel that is
/// left. Every import returns -1. The instance is returned as the call left it.
pub fn call(
    alloc: Global,
    linked: Arc<Linked>,
    function: u32,
    args: &[Value],
    fuel: u64,
    depth: u32,
) -> Result<(Called, Resident), Failure<'static>>
    requires takes { TakesArguments (arc_value linked).contents function args.now }
    requires depth { (1 ≤ depth) × (depth ≤ MAX_DEPTH) }
    ensures { IfOk result (λ done. IsCalled (arc_value linked).contents fuel depth function args.now done.0) }
{
    let mut resident = Resident::new(alloc, linked)?;
    let started = resident.start(fuel, depth);
    if !has_returned(&started.ending) {
        return Ok((Called::Start(started), resident));
    }
    let left = fuel - started.used;
    let ended = resident.call(function, args, left, depth);
    Ok((Called::Function(ended), resident))
}
