// The phases of a loop, and what its callbacks are run for.

ghost use Rattle.std.specs.Prelude.{◌≡◌};
ghost use Rattle.events.specs.Phases.{next_phase, may_end};

/// A phase of a loop's iteration, after libuv's design overview. `Begin` comes once, before all others.
#[derive(Clone, Copy, Debug, PartialEq, Eq)]
pub enum Phase {
    Begin,
    Timers,
    Idle,
    Poll,
    Check,
    Closing,
}

impl Phase {
    /// The phase that comes after.
    pub fn next(self) -> Phase
        ensures { result ≡ next_phase self }
    {
        match self {
            Phase::Begin | Phase::Closing => Phase::Timers,
            Phase::Timers => Phase::Idle,
            Phase::Idle => Phase::Poll,
            Phase::Poll => Phase::Check,
            Phase::Check => Phase::Closing,
        }
    }

    /// Whether a loop that isn't alive is over where the phase's list is used up.
    pub fn may_end(self) -> bool
        ensures { result ≡ may_end self }
    {
        matches!(self, Phase::Begin | Phase::Closing)
    }
}

/// What a callback is run for.
#[derive(Clone, Copy, Debug, PartialEq, Eq)]
pub enum EntryKind {
    Start,
    Main,
    Timer,
    Idle,
    After,
    Async,
    Check,
    Close,
}
