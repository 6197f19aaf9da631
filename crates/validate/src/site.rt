// Why and where a module is refused.

ghost use Rattle.std.specs.Prelude.{◌≡◌, None};
ghost use Rattle.validate.specs.declared.fault.ValidFault.TheVariants.{Memory};
ghost use Rattle.validate.specs.declared.site.InvalidPart.TheVariants as site;
ghost use Rattle.validate.specs.Faults.{fault_of};
ghost use Rattle.validate.specs.Inner.Placing.{site_in};

use crate::fault::{BodyFault, ValidFault};
use std::alloc::{AllocError, AllocFailed};
use syntax::types::ValType;

/// What of the operands doesn't fit an operation.
#[derive(Clone, Copy, Debug, PartialEq, Eq)]
pub enum Unfit {
    /// An operand of this type is wanted, and one of another type is there, or none.
    Wanted {
        wanted: ValType,
        found: Option<ValType>,
    },
    /// So many are left over at the end of a block, the topmost of this type, if it has one: in code that is never run it may have none.
    Left {
        count: usize,
        last: Option<ValType>,
    },
}

/// The part of a module that is refused. Functions are counted from 0 among those that have a body.
#[derive(Clone, Copy, Debug, PartialEq, Eq)]
pub enum InvalidPart {
    /// The section with this id.
    Section(u8),
    /// A function, for its type or its locals.
    Function(usize),
    /// An operation of a function's body, counted from 0, and what doesn't fit it where that is why.
    Operation {
        function: usize,
        number: usize,
        unfit: Option<Unfit>,
    },
}

/// Why a module is refused, and where.
#[derive(Clone, Copy, Debug, PartialEq, Eq)]
pub struct InvalidAt {
    pub fault: ValidFault,
    /// Of `Memory` it says nothing.
    pub site: InvalidPart,
}

impl From<InvalidAt> for ValidFault {
    ghost from_gives = { λ refused fault. fault ≡ refused.fault };

    fn from(refused: InvalidAt) -> ValidFault {
        refused.fault
    }
}

impl<T: Drop> From<AllocFailed<T>> for InvalidAt {
    ghost from_gives = { λ _ refused. (refused.fault ≡ Memory) × (refused.site ≡ site.Section 10) };

    fn from(_e: AllocFailed<T>) -> InvalidAt {
        InvalidAt {
            fault: ValidFault::Memory,
            site: InvalidPart::Section(10),
        }
    }
}

/// Why a function is refused, and at which of its operations, if it is at one.
#[derive(Clone, Copy)]
pub struct BodyRefused {
    pub fault: BodyFault,
    pub operation: Option<usize>,
    pub unfit: Option<Unfit>,
}

impl BodyRefused {
    /// This refusal, at the function with this number.
    pub fn in_function(self, function: usize) -> InvalidAt
        ensures same { result.fault ≡ fault_of self.fault }
        ensures placed { result.site ≡ site_in function self }
    {
        let site = match self.operation {
            Some(number) => InvalidPart::Operation {
                function,
                number,
                unfit: self.unfit,
            },
            None => InvalidPart::Function(function),
        };
        InvalidAt {
            fault: ValidFault::from(self.fault),
            site,
        }
    }
}

impl From<AllocError> for BodyRefused {
    ghost use Rattle.validate.specs.declared.fault.BodyFault.TheVariants as fault;

    ghost from_gives = { λ _ refused. (refused.fault ≡ fault.Memory) × (refused.operation ≡ None) };

    fn from(e: AllocError) -> BodyRefused {
        BodyRefused::from(BodyFault::from(e))
    }
}

impl From<BodyFault> for BodyRefused {
    ghost from_gives = { λ fault refused. (refused.fault ≡ fault) × (refused.operation ≡ None) };

    fn from(fault: BodyFault) -> BodyRefused {
        BodyRefused {
            fault,
            operation: None,
            unfit: None,
        }
    }
}
