// What threads wait for on a board.

/// What a thread may wait for. Each ends with the board too.
#[derive(Clone, Copy, Debug, PartialEq, Eq)]
pub enum Event {
    /// A job is posted. Of the threads that wait for it, each job wakes one.
    Posted,
    /// A job is taken, so that there is room for another.
    Taken,
    /// A reply of this loop is put. Of the threads that wait for it, each reply wakes one.
    Put(u32),
    /// A reply of this loop is collected, so that there is room for another.
    Collected(u32),
}

/// How often something had been done when it was asked. To wait for the next time, ask first, then look, then wait: so
/// what is done after the look ends the wait.
#[derive(Clone, Copy, Debug)]
pub struct Heard {
    /// What was asked for.
    pub event: Event,
    pub(crate) events: u64,
}
