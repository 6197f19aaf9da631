// Why bytes are no guest, in numbers.

ghost use Rattle.std.specs.Prelude.{◌≡◌, IfOk};
ghost use Rattle.wasmloop_c.specs.Numbers.{stage_number, code_number};

use loader::Refusal;
use places::{Part, Place};
use sentences::{RefusedText, text, try_explain};
use std::alloc::Global;

/// Why bytes are no guest, and where.
#[repr(C)]
#[derive(Clone, Copy)]
pub struct Fault {
    /// 1 decode, 2 validate, 3 link, 4 memory.
    pub stage: u32,
    /// The fault's number in its stage, or 0.
    pub code: u32,
    /// Which of the following are known: 0 none, 1 a byte, 2 a section, 3 a function, 4 an operation, 5 an import, 6 an export.
    pub place: u32,
    /// The section's id, or 0.
    pub section: u32,
    /// The byte, or 0.
    pub at: u64,
    /// The function's number, the imported ones first, or 0.
    pub function: u64,
    /// The operation's number in its function, or the import's, or 0.
    pub number: u64,
}

fn stage_of(refusal: Refusal) -> (u32, u32)
    ensures { (result.0 ≡ stage_number refusal) × (result.1 ≡ code_number refusal) }
{
    match refusal {
        Refusal::Decode(fault) => (1, fault.code()),
        Refusal::Validate(fault) => (2, fault.code()),
        Refusal::Link(fault) => (3, fault.code()),
        Refusal::Memory => (4, 0),
    }
}

impl Fault {
    fn nowhere(refusal: Refusal) -> Fault
        ensures { (result.stage ≡ stage_number refusal) × (result.code ≡ code_number refusal) }
    {
        let (stage, code) = stage_of(refusal);
        Fault {
            stage,
            code,
            place: 0,
            section: 0,
            at: 0,
            function: 0,
            number: 0,
        }
    }

    fn in_part(self, part: Option<Part>) -> Fault
        ensures { (result.stage ≡ self.stage) × (result.code ≡ self.code) }
    {
        match part {
            Some(Part::Section(id)) => Fault {
                section: id as u32,
                ..self
            },
            Some(Part::Function(number)) => Fault {
                section: 10,
                function: number,
                ..self
            },
            None => self,
        }
    }

    fn at_place(self, place: Place) -> Fault
        ensures { (result.stage ≡ self.stage) × (result.code ≡ self.code) }
    {
        match place {
            Place::Byte { at, part } => Fault {
                place: 1,
                at: at as u64,
                ..self.in_part(part)
            },
            Place::Section { id, at } => Fault {
                place: 2,
                section: id as u32,
                at: at as u64,
                ..self
            },
            Place::Function { number, at } => Fault {
                place: 3,
                section: 10,
                function: number,
                at: at as u64,
                ..self
            },
            Place::Operation {
                function,
                number,
                name: _,
                at,
            } => Fault {
                place: 4,
                section: 10,
                function,
                number: number as u64,
                at: at as u64,
                ..self
            },
            Place::Import {
                number,
                module: _,
                name: _,
            } => Fault {
                place: 5,
                number: number as u64,
                ..self
            },
            Place::Export { name: _ } => Fault { place: 6, ..self },
        }
    }

    fn with_place(self, place: Option<Place>) -> Fault
        ensures { (result.stage ≡ self.stage) × (result.code ≡ self.code) }
    {
        match place {
            Some(place) => self.at_place(place),
            None => self,
        }
    }

    /// Why these bytes are refused, and where, as far as that is known.
    pub fn new(alloc: Global, refusal: Refusal, bytes: &[u8]) -> Result<Fault, RefusedText>
        ensures { IfOk result (λ fault. (fault.stage ≡ stage_number refusal) × (fault.code ≡ code_number refusal)) }
    {
        let place = try_explain(refusal, alloc, bytes)?.place;
        Ok(Fault::nowhere(refusal).with_place(place))
    }

    /// The same, with the sentence that `check` prints.
    pub fn told(
        alloc: Global,
        refusal: Refusal,
        bytes: &[u8],
    ) -> Result<(Fault, String), RefusedText>
        ensures { IfOk result (λ told. (told.0.stage ≡ stage_number refusal) × (told.0.code ≡ code_number refusal)) }
    {
        let account = try_explain(refusal, alloc, bytes)?;
        let text = text(alloc, &account)?;
        Ok((Fault::nowhere(refusal).with_place(account.place), text))
    }
}
