// How many threads there are, and what a loop may spend.

ghost use Rattle.std.specs.Prelude.{◌≤◌};
ghost use Rattle.limits.specs.declared.TheConstants.{MAX_DEPTH, MAX_LOOPS, MAX_WORKERS};

use events::settings::LoopSettings;

/// How many loops and workers there are, and what each loop may spend.
#[derive(Clone, Copy, Debug)]
pub struct Serving {
    /// The loops, 1 to `MAX_LOOPS`.
    pub loops: u32,
    /// The workers, 1 to `MAX_WORKERS`.
    pub workers: u32,
    /// What each loop may spend.
    pub settings: LoopSettings,
    pub ghost few_loops: { (1 ≤ loops) × (loops ≤ MAX_LOOPS) },
    pub ghost few_workers: { (1 ≤ workers) × (workers ≤ MAX_WORKERS) },
    pub ghost depth_in_range: { (1 ≤ settings.depth) × (settings.depth ≤ MAX_DEPTH) },
}
