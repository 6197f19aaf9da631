// What a new instance holds (WebAssembly Core 1.0, 4.5.4).

ghost use Rattle.std.specs.Prelude.{◌≡◌, ◌+◌, ◌*◌, ◌≤◌, length, All, Some, IfOk};
ghost use Rattle.syntax.specs.declared.types.ValType.TheVariants.{I32};
ghost use Rattle.valid.specs.Segments.{ElementFits, DataFits, offset_in};
ghost use Rattle.valid.specs.Valid.{IsConstant, ValidModule};
ghost use Rattle.instance.specs.Store.{page_limit};
ghost use Rattle.instance.specs.Reads.{with_bytes};
ghost use Rattle.instance.specs.Fresh.{with_element, with_data, fresh_globals, fresh_table, fresh_bytes};

use crate::memory::Memory;
use std::alloc::{AllocError, Global};
use syntax::contents::{Contents, Data, Element};
use syntax::types::Value;
use valid::{constant_of, offset_of};

/// The globals, with their initial values.
pub fn first_globals(alloc: Global, contents: &Contents) -> Result<Vec<Value>, AllocError>
    requires { ValidModule contents.now }
    ensures { IfOk result (λ globals. globals.items ≡ fresh_globals contents.now) }
{
    let mut globals = Vec::with_capacity(alloc, contents.globals.len())?;
    for global in contents.globals.as_slice() {
        globals.push(constant_of(&global.init))?;
    }
    Ok(globals)
}

/// Writes a segment of elements into the table.
fn write_element(table: &mut [Option<u32>], element: &Element)
    requires constant { IsConstant I32 element.now.offset }
    requires fits { offset_in element.now.offset + length element.now.functions ≤ length table.old }
    ensures { table.new ≡ with_element table.old element.now }
{
    let start = offset_of(&element.offset) as usize;
    for (at, function) in element.functions.as_slice().iter().enumerate() {
        table[start + at] = Some(*function);
    }
}

/// The table: empty initially, then with the elements of each segment.
pub fn first_table(alloc: Global, contents: &Contents) -> Result<Vec<Option<u32>>, AllocError>
    requires valid { ValidModule contents.now }
    requires fit { All (ElementFits contents.now) contents.now.elements }
    ensures { IfOk result (λ table. table.items ≡ fresh_table contents.now) }
{
    let mut table = Vec::new(alloc);
    table.resize(contents.table.map_or(0, |limits| limits.min as usize), None)?;
    for element in contents.elements.as_slice() {
        write_element(table.as_mut_slice(), element);
    }
    Ok(table)
}

/// Writes a segment of data into the memory.
fn write_data(memory: &mut Memory, segment: &Data)
    requires constant { IsConstant I32 segment.now.offset }
    requires fits { offset_in segment.now.offset + length segment.now.bytes ≤ length memory.old.bytes }
    ensures { memory.new ≡ with_bytes (with_data memory.old.bytes segment.now) memory.old }
{
    let start = offset_of(&segment.offset) as usize;
    let _all = memory.write(start, segment.bytes.as_slice());
}

/// The memory: all zero initially, then with the bytes of each segment. It is made in the room of another's front.
pub fn first_memory(front: Vec<u8>, contents: &Contents) -> Result<Memory, AllocError>
    requires valid { ValidModule contents.now }
    requires fit { All (DataFits contents.now) contents.now.«data» }
    ensures bytes { IfOk result (λ memory. memory.bytes ≡ fresh_bytes contents.now) }
    ensures limit { IfOk result (λ memory. memory.limit ≡ page_limit contents.now.memory) }
{
    let mut memory = Memory::new_in(front, contents.memory)?;
    for segment in contents.data.as_slice() {
        write_data(&mut memory, segment);
    }
    Ok(memory)
}
