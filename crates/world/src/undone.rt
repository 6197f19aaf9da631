// Work that did not return.

ghost use Rattle.world.specs.Undone.{IsUndone};

use order::Trail;
use world_log::{JobEnd, JobId};

/// A job whose work did not return.
#[derive(Debug, Drop)]
pub struct Undone {
    /// The job.
    pub job: JobId,
    /// How it ended.
    pub ending: JobEnd,
    /// The units of fuel that it used.
    pub used: u64,
    /// Where it stopped.
    pub trail: Trail,
    pub ghost known: { ∥ IsUndone job ending used trail ∥₁ },
}
