// What a script asks for.

ghost use Rattle.std.specs.Prelude.{◌≡◌, IsTrue, ◌↔◌};

use events::settings::LoopSettings;
use limits::{MAX_DEPTH, MAX_LOOPS, MAX_SCRIPT_MODULES, MAX_SCRIPT_STEPS, MAX_WORKERS};
use world_log::Step;

/// A loop of a script.
#[derive(Clone, Copy, Debug)]
pub struct LoopPlan {
    /// Which of the script's modules the loop runs, counted from 0.
    pub module: u32,
    /// What its callbacks and work functions may spend.
    pub settings: LoopSettings,
}

/// What a script asks for: a world, and the steps that it is to take.
#[derive(Debug, Drop)]
pub struct Plan {
    /// The bytes of each module.
    pub modules: Vec<Vec<u8>>,
    /// The loops, in order of their numbers.
    pub loops: Vec<LoopPlan>,
    /// How many workers there are.
    pub workers: u32,
    /// The steps, the first one first.
    pub steps: Vec<Step>,
}

impl Plan {
    ghost use Rattle.script.specs.Limits.{IsWithinLimits};

    /// Whether there are 1 to `MAX_SCRIPT_MODULES` modules, 1 to `MAX_LOOPS` loops, at most `MAX_WORKERS` workers and at
    /// most `MAX_SCRIPT_STEPS` steps, and each loop has a module that is there and a depth of 1 to `MAX_DEPTH`.
    pub(crate) fn is_within_limits(&self) -> bool
        ensures { IsTrue result ↔ IsWithinLimits self.now }
    {
        let modules = self.modules.len();
        let loops = self.loops.len();
        modules >= 1
            && modules <= MAX_SCRIPT_MODULES
            && loops >= 1
            && loops <= MAX_LOOPS as usize
            && self.workers <= MAX_WORKERS
            && self.steps.len() <= MAX_SCRIPT_STEPS
            && self
                .loops
                .iter()
                .all(|planned| planned.is_within_limits(modules))
    }
}

impl LoopPlan {
    ghost use Rattle.script.specs.Limits.{IsLoopWithinLimits};

    fn is_within_limits(&self, modules: usize) -> bool
        ensures { IsTrue result ↔ IsLoopWithinLimits modules self.now }
    {
        let depth = self.settings.depth;
        (self.module as usize) < modules && depth >= 1 && depth <= MAX_DEPTH
    }
}
