// A call between two slices.

ghost use Rattle.std.specs.Prelude.{◌≡◌, ◌+◌, ◌^◌, ◌<◌, ◌≤◌, length, IfSome};
ghost use Rattle.limits.specs.declared.TheConstants.{MAX_DEPTH};
ghost use Rattle.instance.specs.Stops.{stop_of};

use engine::At;
use instance::stack::{Caller, Last, Stop};

/// How many bytes that a host copies count as one unit of a slice.
pub const UNIT_BYTES: u64 = 64;

/// A call of a defined function between two slices: of which, and with how many calls open at most, where it goes on, how much fuel it has
/// used, and how much is left; and where it stands, once something of it has run. What it works on stays in the slots, the callers and the
/// state of its instance.
#[derive(Clone, Copy)]
pub struct Paused {
    pub(crate) function: u32,
    pub(crate) depth: u32,
    pub(crate) at: At,
    pub(crate) used: u64,
    pub(crate) left: u64,
    pub(crate) last: Option<Last>,
    pub ghost deep: { (1 ≤ depth) × (depth ≤ MAX_DEPTH) },
    pub ghost sum: { used + left < 2 ^ 64 },
}

impl Paused {
    /// The function that was called.
    pub fn function(&self) -> u32
        ensures { result ≡ self.now.function }
    {
        self.function
    }

    /// The units of fuel that it has used.
    pub fn used(&self) -> u64
        ensures { result ≡ self.now.used }
    {
        self.used
    }

    /// Where it stands over these callers, once something of it has run.
    pub fn stop<'a>(&self, frames: &'a [Caller]) -> Option<Stop<'a>>
        requires { IfSome self.now.last (λ l. l.depth ≤ length frames.now) }
        ensures { result ≡ stop_of self.now.last frames.now }
    {
        let last = self.last?;
        Some(Stop::of(last, frames))
    }
}
