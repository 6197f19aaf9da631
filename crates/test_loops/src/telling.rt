// What a loop does, as text: its events, one after another.

use events::did::StepDid;
use events::ended::Ending;
use phases::{LoopCore, Shared};
use std::alloc::AllocError;
use std::process::Abort;

/// Asserts that this was printed.
pub fn check_told(rt: &impl Abort, told: &str, wanted: &str) {
    assert_eq!(rt; told, wanted);
}

/// Sets the next event off from the one before.
pub fn next(text: &mut String) -> Result<(), AllocError> {
    if text.is_empty() {
        return Ok(());
    }
    text.push_str("; ")
}

/// Takes so many steps, and writes what each did.
pub fn steps<B: Shared + Drop>(
    core: &mut LoopCore<B>,
    count: u32,
    text: &mut String,
) -> Result<(), AllocError> {
    for _ in 0..count {
        next(text)?;
        step(core, text)?;
    }
    Ok(())
}

fn step<B: Shared + Drop>(core: &mut LoopCore<B>, text: &mut String) -> Result<(), AllocError> {
    let did = core.step();
    tell(&did, core.emits(), text)
}

fn tell(did: &StepDid, emits: &[u64], text: &mut String) -> Result<(), AllocError> {
    match did {
        StepDid::Entered { phase, now } => write!(text, "{phase:?} {now}"),
        StepDid::Ran {
            kind,
            number,
            ended,
        } => {
            write!(text, "run {kind:?} {number}{}", word(&ended.ending))?;
            write_emits(emits, text)
        }
        StepDid::Skipped { kind, number } => write!(text, "skip {kind:?} {number}"),
        StepDid::Over => text.push_str("over"),
        StepDid::Failed => text.push_str("failed"),
    }
}

/// What is printed of an ending after the callback: nothing of a return.
fn word(ending: &Ending) -> &'static str {
    match ending {
        Ending::Return(_) => "",
        Ending::Trap(_) => " trap",
        Ending::Depth => " depth",
        Ending::Spent => " spent",
    }
}

fn write_emits(emits: &[u64], text: &mut String) -> Result<(), AllocError> {
    for value in emits {
        write!(text, " {}", value.cast_signed())?;
    }
    Ok(())
}
