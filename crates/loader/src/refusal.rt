// Why bytes are no guest.

use decode::DecodeFault;
use imports::LinkFault;
use thiserror::Error;
use validate::ValidFault;

/// Why bytes are no guest. It prints its stage, number and word, as in `decode 10 Counts`.
#[derive(Clone, Copy, Debug, PartialEq, Eq, Error)]
pub enum Refusal {
    /// There is not enough memory.
    #[error("memory")]
    Memory,
    /// The bytes are no module of the profile.
    #[error("decode {} {}", .0.code(), .0)]
    Decode(DecodeFault),
    /// The module is not valid.
    #[error("validate {} {}", .0.code(), .0)]
    Validate(ValidFault),
    /// The module doesn't fit the host.
    #[error("link {} {}", .0.code(), .0)]
    Link(LinkFault),
}
