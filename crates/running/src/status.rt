// What the program ends with.

ghost use Rattle.std.specs.Prelude.{◌≡◌};
ghost use Rattle.running.specs.Statuses.{number_of_status};

/// The exit status of the program.
#[derive(Clone, Copy, Debug, PartialEq, Eq)]
pub enum ExitStatus {
    /// The command is done.
    Done,
    /// A file, memory or the output failed.
    Failed,
    /// A usage error.
    Usage,
    /// The module is rejected.
    Refused,
    /// The call did not return, or a loop failed.
    Ended,
}

impl ExitStatus {
    /// The status as a number: 0 Done, 1 Failed, 2 Usage, 3 Refused, 4 Ended.
    pub fn number(self) -> u8
        ensures { result ≡ number_of_status self }
    {
        self as u8
    }
}
