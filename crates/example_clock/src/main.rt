//! A host in real time: it drives a loop of a guest by the machine's clock, and sleeps while the loop has nothing to do.
#![tactic(auto)]

use embed::{Desk, Hint, Linked, LoopCore, Phase, StepDid, load};
use std::sync::Arc;
use std::time::{Duration, Instant};
use std::{fs, thread};

fn guest(rt: &HostRuntime, file: &str) -> anyhow::Result<Arc<Linked>> {
    let linked = load(rt.alloc(), fs::read(rt, file)?.as_slice())?;
    Ok(Arc::new(rt.alloc(), linked)?)
}

/// The milliseconds since a moment.
fn passed(rt: &HostRuntime, since: Instant) -> anyhow::Result<u64> {
    Ok(u64::try_from(since.elapsed(rt)?.as_millis())?)
}

/// Sleeps until a timer of the loop is due, if one is and there is nothing else to do. False where the loop waits for nothing:
/// here no work is under way, and nobody sends.
fn sleep(rt: &HostRuntime, core: &LoopCore<Desk>) -> bool {
    match core.hint() {
        Hint::Now => true,
        Hint::For(wait) => {
            thread::sleep(rt, Duration::from_millis(wait));
            true
        }
        Hint::Forever => false,
    }
}

/// Drives a loop of the guest until it is over. Work is done at once.
fn drive(rt: &HostRuntime, guest: Arc<Linked>) -> anyhow::Result<()> {
    let began = Instant::now(rt)?;
    let desk = Desk::new(rt.alloc(), 0)?;
    let mut core = LoopCore::new(rt.alloc(), guest, desk, 0, 1_000_000, 1_000_000, 64)?;
    for _ in 0..u64::MAX {
        if let Some(order) = core.next_order() {
            core.accept(order.run(rt.alloc()));
        }
        core.clock(passed(rt, began)?);
        match core.step() {
            StepDid::Ran { kind, .. } => println!(rt; "{kind:?} emits {:?}", core.emits())?,
            StepDid::Entered {
                phase: Phase::Timers,
                ..
            } if !sleep(rt, &core) => return Ok(()),
            StepDid::Over | StepDid::Failed => return Ok(()),
            StepDid::Entered { .. } | StepDid::Skipped { .. } => {}
        }
    }
    Ok(())
}

fn main(rt: HostRuntime) -> anyhow::Result<()> {
    drive(&rt, guest(&rt, "countdown.wasm")?)
}
