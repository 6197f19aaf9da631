// Why bytes are rejected, in words.

use crate::count::Grouped;
use crate::defect::Defect;
use places::{CutShort, Place};
use std::fmt;

/// What is found.
#[derive(Clone, Copy, Debug)]
enum Found {
    Words(&'static str),
    /// A byte, and what it is or begins.
    Byte(u8, &'static str),
    /// An instruction that is not supported.
    Operation(&'static str),
    /// There are more than so many of these, or one has more.
    MoreThan(u64, &'static str),
    /// The module has more than so many bytes.
    LongerThan(u64),
    /// Bytes that begin otherwise than a module, and what they are.
    Format(&'static str),
    /// A section that declares more bytes than are left.
    CutShort {
        section: u8,
        said: u32,
        left: usize,
    },
    /// There are so many functions and so many bodies.
    Counts {
        functions: u32,
        bodies: u32,
    },
    /// A segment of this number, and what it is.
    Segment(u32, &'static str),
    /// The type of the expected operand, and of the one found in its place.
    Operand {
        wanted: &'static str,
        found: Option<&'static str>,
    },
    /// How many extra operands a block leaves, and the type of the topmost.
    Left {
        count: usize,
        last: Option<&'static str>,
    },
}

/// What helps, or what else is known.
#[derive(Debug, Drop)]
enum Help {
    Nothing,
    Words(&'static str),
    Told(String),
}

/// Where bytes are rejected, and what is found there, as far as that is known.
#[derive(Debug, Drop)]
pub struct Finding {
    pub place: Place,
    pub defect: Option<Defect>,
    pub reason: Option<Reason>,
}

/// Why bytes are rejected. It prints as a sentence, followed by what helps in brackets.
#[derive(Debug, Drop)]
pub struct Reason {
    found: Found,
    help: Help,
}

impl Reason {
    fn of(found: Found) -> Reason {
        Reason {
            found,
            help: Help::Nothing,
        }
    }

    /// As these words say.
    pub fn words(words: &'static str) -> Reason {
        Reason::of(Found::Words(words))
    }

    /// A byte is not supported, because of what it is or begins.
    pub fn byte(byte: u8, what: &'static str) -> Reason {
        Reason::of(Found::Byte(byte, what))
    }

    /// There are more than so many of these, or one has more.
    pub fn more_than(most: u64, things: &'static str) -> Reason {
        Reason::of(Found::MoreThan(most, things))
    }

    /// The module has more than so many bytes.
    pub fn longer_than(most: u64) -> Reason {
        Reason::of(Found::LongerThan(most))
    }

    /// The bytes are no module, but this.
    pub fn format(name: &'static str) -> Reason {
        Reason::of(Found::Format(name))
    }

    /// The bytes end within a section.
    pub fn cut_short(cut: CutShort) -> Reason {
        let CutShort {
            section,
            said,
            left,
        } = cut;
        Reason::of(Found::CutShort {
            section,
            said,
            left,
        })
    }

    /// There are so many functions, and so many bodies.
    pub fn counts(functions: u32, bodies: u32) -> Reason {
        Reason::of(Found::Counts { functions, bodies })
    }

    /// The segment of this number is not supported, because of what it is.
    pub fn segment(number: u32, what: &'static str) -> Reason {
        Reason::of(Found::Segment(number, what))
    }

    /// The instruction of this name is not supported.
    pub fn operation(name: &'static str) -> Reason {
        Reason::of(Found::Operation(name))
    }

    /// An operand of type `wanted` was expected, and one of type `found` or none was found.
    pub fn operand(wanted: &'static str, found: Option<&'static str>) -> Reason {
        Reason::of(Found::Operand { wanted, found })
    }

    /// A block leaves `count` extra operands, the topmost of type `last`.
    pub fn left_over(count: usize, last: Option<&'static str>) -> Reason {
        Reason::of(Found::Left { count, last })
    }

    /// With what helps.
    pub fn with(self, help: &'static str) -> Reason {
        Reason {
            found: self.found,
            help: Help::Words(help),
        }
    }

    /// With what else is known.
    pub fn with_told(self, told: String) -> Reason {
        Reason {
            found: self.found,
            help: Help::Told(told),
        }
    }
}

/// Writes how many operands are left over, and of which type the topmost is.
fn write_left<W: fmt::Write>(
    f: &mut fmt::Formatter<W>,
    count: usize,
    last: Option<&'static str>,
) -> fmt::Result {
    write!(f, "extra operands at the end of the block: {count}")?;
    match last {
        Some(last) => write!(f, ", the topmost of type {last}"),
        None => Ok(()),
    }
}

impl fmt::Display for Found {
    fn fmt<W: fmt::Write>(&self, f: &mut fmt::Formatter<W>) -> fmt::Result {
        match *self {
            Found::Words(words) => f.write_str(words),
            Found::Byte(byte, what) => write!(f, "0x{byte:02x}: {what}"),
            Found::Operation(name) => write!(f, "{name} is not supported"),
            Found::MoreThan(most, things) => write!(f, "more than {} {things}", Grouped(most)),
            Found::LongerThan(most) => {
                write!(f, "the module has more than {} bytes", Grouped(most))
            }
            Found::Format(name) => write!(f, "the bytes don't begin with 00 61 73 6d: {name}"),
            Found::CutShort {
                section,
                said,
                left,
            } => write!(
                f,
                "section {section} declares {said} bytes; bytes left: {left}"
            ),
            Found::Counts { functions, bodies } => write!(
                f,
                "the numbers of functions and bodies differ; functions: {functions}, bodies: {bodies}"
            ),
            Found::Segment(number, what) => write!(f, "segment {number} is {what}"),
            Found::Operand { wanted, found } => {
                write!(f, "expected an operand of type {wanted}, found ")?;
                f.write_str(found.unwrap_or("none"))
            }
            Found::Left { count, last } => write_left(f, count, last),
        }
    }
}

impl fmt::Display for Reason {
    fn fmt<W: fmt::Write>(&self, f: &mut fmt::Formatter<W>) -> fmt::Result {
        write!(f, "{}", self.found)?;
        match &self.help {
            Help::Nothing => Ok(()),
            Help::Words(help) => write!(f, " ({help})"),
            Help::Told(told) => write!(f, " ({told})"),
        }
    }
}
