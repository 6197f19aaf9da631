// Types, as they are printed.

use std::fmt;
use syntax::types::ValType;

/// The name of a type, as the text format has it.
pub fn name_of_type(value_type: ValType) -> &'static str {
    match value_type {
        ValType::I32 => "i32",
        ValType::I64 => "i64",
    }
}

/// The type of a function, printed as `[i32 i64] -> [i32]`.
#[derive(Clone, Copy)]
pub struct SpelledType<'a> {
    params: &'a [ValType],
    results: &'a [ValType],
}

impl<'a> SpelledType<'a> {
    /// The type of a function that takes and leaves these.
    pub fn new(params: &'a [ValType], results: &'a [ValType]) -> SpelledType<'a> {
        SpelledType { params, results }
    }
}

fn write_types<W: fmt::Write>(f: &mut fmt::Formatter<W>, types: &[ValType]) -> fmt::Result {
    let mut between = "";
    for value_type in types {
        write!(f, "{between}{}", name_of_type(*value_type))?;
        between = " ";
    }
    Ok(())
}

impl fmt::Display for SpelledType<'_> {
    fn fmt<W: fmt::Write>(&self, f: &mut fmt::Formatter<W>) -> fmt::Result {
        f.write_str("[")?;
        write_types(f, self.params)?;
        f.write_str("] -> [")?;
        write_types(f, self.results)?;
        f.write_str("]")
    }
}
