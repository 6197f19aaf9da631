// What a step did, without room for results.

ghost use Rattle.std.specs.Prelude.{◌≡◌};
ghost use Rattle.phases.specs.Bare.{whole_did};

use events::did::StepDid;
use events::ended::BareEnded;
use events::phase::{EntryKind, Phase};

/// What one step did, each case as in `StepDid`. A callback has no results, and a `StepDid` has room for many: it would be
/// filled with zeros and copied by each function on the way out.
#[derive(Clone, Copy, Debug, PartialEq, Eq)]
pub enum BareDid {
    /// A phase was entered, at this moment.
    Entered {
        phase: Phase,
        now: u64,
    },
    /// A callback ran. The number is its handle or its request, and 0 for the start function and `uv_main`.
    Ran {
        kind: EntryKind,
        number: u32,
        ended: BareEnded,
    },
    /// An entry was skipped, since its handle is no longer what was listed, or nothing was sent to its async.
    Skipped {
        kind: EntryKind,
        number: u32,
    },
    /// The loop is over.
    Over,
    /// The loop has failed.
    Failed,
}

impl BareDid {
    /// The step as the owner gets it.
    /// Each arm returns by itself: what a `match` gives is filled with zeros and copied once more.
    pub fn whole(self) -> StepDid
        ensures { result ≡ whole_did self }
    {
        match self {
            BareDid::Entered { phase, now } => return StepDid::Entered { phase, now },
            BareDid::Ran {
                kind,
                number,
                ended,
            } => {
                return StepDid::Ran {
                    kind,
                    number,
                    ended: ended.whole(),
                };
            }
            BareDid::Skipped { kind, number } => return StepDid::Skipped { kind, number },
            BareDid::Over => return StepDid::Over,
            BareDid::Failed => return StepDid::Failed,
        }
    }
}
