// Why a script is rejected.

ghost use Rattle.std.specs.Prelude.{◌≡◌};

use std::alloc::AllocFailed;
use thiserror::Error;

/// Why a script is rejected. It prints as its name.
#[derive(Clone, Copy, Debug, PartialEq, Eq, Error)]
pub enum ScriptFault {
    /// The text is not JSON, or is nested deeper than 128 levels.
    #[error("Json")]
    Json,
    /// A key is missing, twice there or one too many, a value has another type, a step is unknown, or a step has another
    /// count of numbers. A number that neither a u64 nor an i64 holds has another type.
    #[error("Shape")]
    Shape,
    /// A module is not in hexadecimal.
    #[error("Hex")]
    Hex,
    /// A number or a count is out of range.
    #[error("Range")]
    Range,
    /// Memory ran out while reading the script.
    #[error("Memory")]
    Memory,
}

impl ScriptFault {
    ghost use Rattle.script.specs.Fault.{fault_code};

    /// The number of this fault, 1 to 5 in the order above.
    pub fn code(self) -> u32
        ensures { result ≡ fault_code self }
    {
        match self {
            ScriptFault::Json => 1,
            ScriptFault::Shape => 2,
            ScriptFault::Hex => 3,
            ScriptFault::Range => 4,
            ScriptFault::Memory => 5,
        }
    }
}

impl ScriptFault {
    /// What is wrong, in words.
    pub fn meaning(self) -> &'static str {
        match self {
            ScriptFault::Json => "invalid JSON",
            ScriptFault::Shape => "an unexpected key, value, step or number of numbers",
            ScriptFault::Hex => "invalid hexadecimal",
            ScriptFault::Range => "a number or a count is out of range",
            ScriptFault::Memory => "out of memory",
        }
    }
}

impl<T: Drop> From<AllocFailed<T>> for ScriptFault {
    ghost use Rattle.std.specs.Prelude.{◌≡◌};
    ghost use Rattle.script.specs.declared.fault.ScriptFault.TheVariants.{Memory};

    ghost from_gives = { λ _ e. e ≡ Memory };

    fn from(_refused: AllocFailed<T>) -> ScriptFault {
        ScriptFault::Memory
    }
}
