// A loop as a handle has it, in a step or not.

ghost use Rattle.std.specs.Prelude.{◌≡◌};
ghost use Rattle.std.proofs.Props.{props};
ghost use Rattle.wasmloop_c.specs.Inner.Held.{IsStepOfLoop};

use desk::Desk;
use phases::{LoopCore, Stepping};

/// A loop between two steps, and the number that its jobs carry.
#[derive(Drop)]
pub struct HeldLoop {
    pub core: LoopCore<Desk>,
    pub number: u32,
    ghost numbered: { core.setting.loop_no ≡ number },
}

/// A loop between two slices of a step, and the number that its jobs carry.
#[derive(Drop)]
pub struct HeldStep {
    pub step: Stepping<Desk>,
    pub number: u32,
    ghost begun: { ∥ IsStepOfLoop number step ∥₁ } by { Prim.hlevel props },
}
