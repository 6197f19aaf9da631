// Where in its bytes a module is refused.

ghost use Rattle.std.specs.Prelude.{◌≡◌, IfSome, string_bytes};
ghost use Rattle.places.specs.Places.{IsPlaceOfImport, IsPlaceOfExport};

use crate::shown::Shown;
use crate::spans::CODE;
use std::alloc::Global;
use std::{fmt, str};

/// A part of a module.
#[derive(Clone, Copy, Debug, PartialEq, Eq)]
pub enum Part {
    /// The section with this id.
    Section(u8),
    /// The body of this function. The imported functions are counted first.
    Function(u64),
}

/// Where in its bytes a module is refused. It prints as words.
#[derive(Debug, Drop)]
pub enum Place {
    /// At a byte, and the section or body that it lies in, if it lies in one.
    Byte {
        at: usize,
        part: Option<Part>,
    },
    /// In a section, which begins at this byte.
    Section {
        id: u8,
        at: usize,
    },
    /// In a function, whose body begins at this byte. The imported functions are counted first.
    Function {
        number: u64,
        at: usize,
    },
    /// At an operation of a function's body, which begins at this byte. Operations are counted from 0, those that begin or
    /// end a block too.
    Operation {
        function: u64,
        number: usize,
        name: &'static str,
        at: usize,
    },
    /// At an import, by its number and its two names.
    Import {
        number: usize,
        module: String,
        name: String,
    },
    /// At an export, by its name.
    Export {
        name: String,
    },
}

fn text_of(alloc: Global, name: &[u8]) -> Option<String>
    ensures { IfSome result (λ text. string_bytes text ≡ name.now) }
{
    String::from_str(alloc, str::from_utf8(name).ok()?).ok()
}

impl Place {
    /// The place of the import with this number and these two names.
    pub fn import(alloc: Global, number: usize, module: &[u8], name: &[u8]) -> Option<Place>
        ensures { IfSome result (IsPlaceOfImport number «module».now name.now) }
    {
        Some(Place::Import {
            number,
            module: text_of(alloc, module)?,
            name: text_of(alloc, name)?,
        })
    }

    /// The place of the export with this name.
    pub fn export(alloc: Global, name: &[u8]) -> Option<Place>
        ensures { IfSome result (IsPlaceOfExport name.now) }
    {
        let name = text_of(alloc, name)?;
        Some(Place::Export { name })
    }
}

impl fmt::Display for Part {
    fn fmt<W: fmt::Write>(&self, f: &mut fmt::Formatter<W>) -> fmt::Result {
        match self {
            Part::Section(id) => write!(f, "section {id}"),
            Part::Function(number) => write!(f, "section {CODE}, function {number}"),
        }
    }
}

impl fmt::Display for Place {
    fn fmt<W: fmt::Write>(&self, f: &mut fmt::Formatter<W>) -> fmt::Result {
        match self {
            Place::Byte {
                at,
                part: Some(part),
            } => write!(f, "byte {at} ({part})"),
            Place::Byte { at, part: None } => write!(f, "byte {at}"),
            Place::Section { id, at } => write!(f, "section {id} at byte {at}"),
            Place::Function { number, at } => { write!(f, "function {number}, body at byte {at}") }
            Place::Operation {
                function,
                number,
                name,
                at,
            } => {
                write!(
                    f,
                    "function {function}, instruction {number} ({name}) at byte {at}"
                )
            }
            Place::Import {
                number,
                module,
                name,
            } => {
                let (module, name) = (Shown(module.as_str()), Shown(name.as_str()));
                write!(f, "import {number}, \"{module}\" \"{name}\"")
            }
            Place::Export { name } => write!(f, "export \"{}\"", Shown(name.as_str())),
        }
    }
}
