// Whether the segments of a valid module fit its table and its memory (WebAssembly Core 1.0, 4.5.4).

ghost use Rattle.std.specs.Prelude.{◌≡◌, ◌+◌, ◌≤◌, ◌↔◌, All, IsTrue};
ghost use Rattle.syntax.specs.declared.types.ValType.TheVariants.{I32};
ghost use Rattle.syntax.specs.declared.types.ValType.{ValType};
ghost use Rattle.valid.specs.Segments.{ElementFits, DataFits, constant_in, offset_in, minimum};
ghost use Rattle.valid.specs.Valid.{IsConstant, ValidModule};

use limits::PAGE_SIZE;
use syntax::contents::Contents;
use syntax::initializer::Initializer;
use syntax::types::{Limits, Value};

/// The value of an initializer.
pub fn constant_of(code: &Initializer) -> Value
    requires { (t : ValType) × IsConstant t code.now }
    ensures { result ≡ constant_in code.now }
{
    code.constant().unwrap()
}

/// The offset of a segment, read as unsigned.
pub fn offset_of(code: &Initializer) -> u32
    requires { IsConstant I32 code.now }
    ensures { result ≡ offset_in code.now }
{
    match constant_of(code) {
        Value::I32(offset) => offset,
        Value::I64(_) => unreachable!(),
    }
}

/// Whether so many elements or bytes from the offset on fit the room that there is.
fn fits(offset: &Initializer, len: usize, room: u64) -> bool
    requires { IsConstant I32 offset.now }
    ensures { IsTrue result ↔ (offset_in offset.now + len ≤ room) }
{
    let start = u64::from(offset_of(offset));
    let len = len as u64;
    len <= room && start <= room - len
}

/// How many elements or pages there are initially.
fn first_size(limits: Option<Limits>) -> u32
    ensures { result ≡ minimum limits }
{
    match limits {
        Some(limits) => limits.min,
        None => 0,
    }
}

/// Whether every element segment fits the table.
pub fn elements_fit(contents: &Contents) -> bool
    requires { ValidModule contents.now }
    ensures { IsTrue result ↔ All (ElementFits contents.now) contents.now.elements }
{
    let room = u64::from(first_size(contents.table));
    for element in contents.elements.as_slice() {
        if !fits(&element.offset, element.functions.len(), room) {
            return false;
        }
    }
    true
}

/// Whether every data segment fits the memory.
pub fn data_fits(contents: &Contents) -> bool
    requires { ValidModule contents.now }
    ensures { IsTrue result ↔ All (DataFits contents.now) contents.now.«data» }
{
    let room = u64::from(first_size(contents.memory)) * PAGE_SIZE as u64;
    for segment in contents.data.as_slice() {
        if !fits(&segment.offset, segment.bytes.len(), room) {
            return false;
        }
    }
    true
}
