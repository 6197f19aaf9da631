// What breaks a rule of validity, by numbers.

use crate::types::name_of_type;
use places::Shown;
use std::fmt;
use syntax::types::ValType;

/// An index space of a module, or of a function (WebAssembly Core 1.0, 2.5.1).
#[derive(Clone, Copy, Debug, PartialEq, Eq)]
pub enum IndexSpace {
    Types,
    Functions,
    Tables,
    Memories,
    Globals,
    Locals,
    Labels,
}

/// An index that names nothing, and how many things there are that one of its space can name. It prints as a sentence.
#[derive(Clone, Copy, Debug)]
pub struct Dangling {
    pub space: IndexSpace,
    pub index: u32,
    pub count: usize,
}

/// An entry of a section, by its number. Functions are counted from the imported ones on.
#[derive(Clone, Copy, Debug)]
pub enum SectionEntry {
    Type(usize),
    Import(usize),
    Function(usize),
    Global(usize),
    Export(usize),
    Start,
    Element(usize),
    Data(usize),
}

/// What breaks a rule of validity. It prints as a sentence.
#[derive(Debug, Drop)]
pub enum Defect {
    /// An index of the instruction names nothing.
    Index(Dangling),
    /// The instruction asks for an alignment of 2 to this power, and accesses so many bytes.
    Alignment {
        power: u32,
        bytes: u32,
    },
    /// The instruction sets this global, which is constant.
    Immutable(u32),
    /// An index of the entry names nothing.
    EntryIndex(SectionEntry, Dangling),
    /// The function type of the entry has more results than these, the limit.
    Results {
        entry: SectionEntry,
        count: usize,
        most: usize,
    },
    /// Two exports have this name.
    Twice {
        first: usize,
        second: usize,
        name: String,
    },
    /// The start function, which has so many parameters and results.
    Start {
        function: u32,
        params: usize,
        results: usize,
    },
    /// The initializer of a global or the offset of a segment is not a single constant of this type.
    NoConstant {
        entry: SectionEntry,
        wanted: ValType,
    },
}

impl IndexSpace {
    /// What one of its indexes names, and many of them.
    fn words(self) -> (&'static str, &'static str) {
        match self {
            IndexSpace::Types => ("type", "types"),
            IndexSpace::Functions => ("function", "functions"),
            IndexSpace::Tables => ("table", "tables"),
            IndexSpace::Memories => ("memory", "memories"),
            IndexSpace::Globals => ("global", "globals"),
            IndexSpace::Locals => ("local", "parameters and locals"),
            IndexSpace::Labels => ("label", "labels"),
        }
    }
}

impl fmt::Display for Dangling {
    fn fmt<W: fmt::Write>(&self, f: &mut fmt::Formatter<W>) -> fmt::Result {
        let Dangling {
            space,
            index,
            count,
        } = *self;
        let (one, many) = space.words();
        write!(f, "there is no {one} {index}; {many}: {count}")
    }
}

impl fmt::Display for SectionEntry {
    fn fmt<W: fmt::Write>(&self, f: &mut fmt::Formatter<W>) -> fmt::Result {
        match self {
            SectionEntry::Type(number) => write!(f, "type {number}"),
            SectionEntry::Import(number) => write!(f, "import {number}"),
            SectionEntry::Function(number) => write!(f, "function {number}"),
            SectionEntry::Global(number) => write!(f, "global {number}"),
            SectionEntry::Export(number) => write!(f, "export {number}"),
            SectionEntry::Start => f.write_str("start function"),
            SectionEntry::Element(number) | SectionEntry::Data(number) => {
                write!(f, "segment {number}")
            }
        }
    }
}

fn write_no_constant<W: fmt::Write>(
    f: &mut fmt::Formatter<W>,
    entry: SectionEntry,
    wanted: ValType,
) -> fmt::Result {
    let what = match entry {
        SectionEntry::Global(_) => "initializer",
        _ => "offset",
    };
    let wanted = name_of_type(wanted);
    write!(
        f,
        "{entry}: the {what} is not a single constant of type {wanted}"
    )
}

impl fmt::Display for Defect {
    fn fmt<W: fmt::Write>(&self, f: &mut fmt::Formatter<W>) -> fmt::Result {
        match self {
            Defect::Index(dangling) => write!(f, "{dangling}"),
            Defect::Alignment { power, bytes } => {
                write!(
                    f,
                    "the alignment is larger than the access; in bytes: 2^{power} and {bytes}"
                )
            }
            Defect::Immutable(global) => write!(
                f,
                "assignment to global {global}, which is immutable"
            ),
            Defect::EntryIndex(entry, dangling) => write!(f, "{entry}: {dangling}"),
            Defect::Results { entry, count, most } => write!(
                f,
                "{entry}: {count} results, at most {most}"
            ),
            Defect::Twice {
                first,
                second,
                name,
            } => {
                let name = Shown(name.as_str());
                write!(
                    f,
                    "duplicate export name \"{name}\" (exports {first} and {second})"
                )
            }
            Defect::Start {
                function,
                params,
                results,
            } => {
                write!(
                    f,
                    "the start function, {function}, may have neither parameters nor results; parameters: {params}, results: {results}"
                )
            }
            Defect::NoConstant { entry, wanted } => write_no_constant(f, *entry, *wanted),
        }
    }
}
