//! A host of two guests: it drives a loop of each by itself, and then has loops of the second served by threads.
#![tactic(auto)]

ghost use Rattle.std.specs.Prelude.{◌≡◌};
ghost use Rattle.board.specs.Jobs.{ticket_of};

use embed::{
    Desk, Hint, JobBox, Linked, LoopCore, LoopSettings, Reply, Serving, StepDid, Task, load, serve,
};
use std::sync::Arc;
use std::{alloc, fs};

fn guest(rt: &HostRuntime, file: &str) -> anyhow::Result<Arc<Linked>> {
    let linked = load(rt.alloc(), fs::read(rt, file)?.as_slice())?;
    Ok(Arc::new(rt.alloc(), linked)?)
}

/// Drives a loop of the guest until it is over. Work is done at once, and the clock jumps to the next timer.
fn drive(rt: &HostRuntime, guest: Arc<Linked>) -> anyhow::Result<()> {
    let desk = Desk::new(rt.alloc(), 0)?;
    let mut core = LoopCore::new(rt.alloc(), guest, desk, 0, 1_000, 1_000, 64)?;
    for _ in 0..1_000 {
        if let Some(order) = core.next_order() {
            core.accept(order.run(rt.alloc()));
        }
        match core.step() {
            StepDid::Ran { kind, .. } => println!(rt; "{kind:?} emits {:?}", core.emits())?,
            StepDid::Over | StepDid::Failed => return Ok(()),
            StepDid::Entered { .. } | StepDid::Skipped { .. } => {}
        }
        let clock = core.clock(0);
        if let Hint::For(wait) = core.hint() {
            core.clock(clock.saturating_add(wait));
        }
    }
    Ok(())
}

fn main(rt: HostRuntime) -> anyhow::Result<()> {
    let asks = guest(&rt, "asks.wasm")?;
    drive(&rt, guest(&rt, "ticker.wasm")?)?;
    drive(&rt, Arc::try_clone(&asks)?)?;
    let memory = rt.alloc();
    // made here: a library that gave out boxes of closures would promise less than its contracts say
    let make = move |task: Task| -> Result<JobBox, alloc::AllocError> {
        let ticket = task.ticket();
        let run = move || -> Reply
            ensures { ticket_of result.order ≡ ticket_of task }
        { task.run(memory) };
        Ok(JobBox::new(ticket, Box::new(memory, run)?))
    };
    let serving = Serving {
        loops: 2,
        workers: 3,
        settings: LoopSettings {
            fuel: 1_000,
            work_fuel: 1_000,
            depth: 64,
        },
    };
    for served in serve(&rt, memory, asks, serving, &make)? {
        println!(rt; "{served}")?;
    }
    Ok(())
}
