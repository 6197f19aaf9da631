// What a work order may read.

ghost use Rattle.std.specs.Prelude.{◌≤◌, IfOk, length};
ghost use Rattle.std.specs.Arc.{arc_value};
ghost use Rattle.limits.specs.declared.TheConstants.{MAX_BYTES};
ghost use Rattle.working.specs.Working.{enough_of_input, IsInput};

use files::{IoFault, Reader};
use limits::MAX_BYTES;
use std::alloc::Global;
use std::sync::Arc;
use words::{WorkInput, WorkRequest};

/// The bytes of the file of this name, if a job may have so many.
fn bytes_of<'a, R: Reader>(alloc: Global, reader: &R, name: &'a str) -> Result<Vec<u8>, IoFault<'a>>
    ensures read { IfOk result (λ bytes. R.gives reader.now name.now enough_of_input bytes.items) }
    ensures short { IfOk result (λ bytes. length bytes.items ≤ MAX_BYTES) }
{
    let bytes = reader.read(alloc, name, MAX_BYTES + 1)?;
    if bytes.len() > MAX_BYTES {
        return Err(IoFault::TooLong {
            name,
            most: MAX_BYTES,
        });
    }
    Ok(bytes)
}

/// The input bytes of the command line, or of the file that it names.
pub fn input_of<'a, R: Reader>(
    alloc: Global,
    reader: &R,
    work: &'a WorkRequest,
) -> Result<Arc<Vec<u8>>, IoFault<'a>>
    ensures given { IfOk result (λ shared. IsInput (R.gives reader.now) work.entry.now.input (arc_value shared).items) }
    ensures short { IfOk result (λ shared. length (arc_value shared).items ≤ MAX_BYTES) }
{
    let bytes = match &work.input {
        WorkInput::Bytes(bytes) => Vec::from_slice(alloc, bytes.as_slice())?,
        WorkInput::File(name) => bytes_of(alloc, reader, name.as_str())?,
    };
    Ok(Arc::new(alloc, bytes)?)
}
