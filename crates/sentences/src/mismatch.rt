// Why arguments do not match a function.

use crate::listing::Listing;
use crate::types::name_of_type;
use places::Shown;
use std::alloc::{AllocError, Global};
use std::fmt;
use syntax::types::ValType;

/// Why arguments do not match a function.
#[derive(Drop)]
pub enum Mismatch<'a> {
    /// The function takes `taken` arguments, and `given` were given. `types` names their types, if memory suffices.
    Count {
        taken: usize,
        types: Option<String>,
        given: usize,
    },
    /// This argument, counted from 1, is not a value of its type.
    Word {
        number: usize,
        value_type: ValType,
        word: &'a str,
    },
}

fn greatest(value_type: ValType) -> u64 {
    match value_type {
        ValType::I32 => u32::MAX.into(),
        ValType::I64 => u64::MAX,
    }
}

fn names_of(alloc: Global, types: &[ValType]) -> Result<String, AllocError> {
    let mut listing = Listing::new(alloc);
    for value_type in types {
        listing.add(name_of_type(*value_type))?;
    }
    listing.finish()
}

impl Mismatch<'_> {
    /// So many words for a function that takes arguments of these types.
    pub fn count(alloc: Global, types: &[ValType], given: usize) -> Mismatch<'static> {
        Mismatch::Count {
            taken: types.len(),
            types: names_of(alloc, types).ok(),
            given,
        }
    }
}

fn write_count<W: fmt::Write>(
    f: &mut fmt::Formatter<W>,
    taken: usize,
    types: &Option<String>,
    given: usize,
) -> fmt::Result {
    match types {
        Some(types) if taken > 0 => {
            write!(f, "expected arguments: {taken} ({types}), found: {given}")
        }
        _ => write!(f, "expected arguments: {taken}, found: {given}"),
    }
}

impl fmt::Display for Mismatch<'_> {
    fn fmt<W: fmt::Write>(&self, f: &mut fmt::Formatter<W>) -> fmt::Result {
        match self {
            Mismatch::Count {
                taken,
                types,
                given,
            } => write_count(f, *taken, types, *given),
            Mismatch::Word {
                number,
                value_type,
                word,
            } => {
                let name = name_of_type(*value_type);
                let most = greatest(*value_type);
                write!(f, "argument {number} ({name}), '{}': ", Shown(word))?;
                write!(
                    f,
                    "expected a whole number from 0 to {most}; write -1 as {most}"
                )
            }
        }
    }
}
