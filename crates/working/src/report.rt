// How a work order ends.

/// How a job ended, if its outcome was written.
#[derive(Clone, Copy, Debug, PartialEq, Eq)]
pub enum WorkReport {
    /// It returned a value and bytes.
    Result,
    /// The work function did not return, or an allocation failed.
    Stopped,
}
