// How a script ends.

/// How a script ended, if its log was written.
#[derive(Clone, Copy, Debug, PartialEq, Eq)]
pub enum ScriptEnd {
    /// All steps were taken, and every callback returned.
    Returned,
    /// All steps were taken, and a callback did not return: its loop has failed.
    Failed,
    /// A step was not taken: it names something that does not exist, or an allocation failed.
    Stopped,
}
