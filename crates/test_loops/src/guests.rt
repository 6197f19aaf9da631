// Guests, and loops of them over a desk.

use desk::Desk;
use imports::Linked;
use phases::LoopCore;
use std::alloc::{AllocError, Global};
use std::sync::Arc;
use std::test::Fail;
use test_fixtures::{guest_of, module_of};

/// The fuel of a callback, and of a work function.
pub const FUEL: u64 = 100_000;

/// How many calls may stand open.
pub const DEPTH: u32 = 8;

/// The guest with these sections, in hexadecimal digits between which spaces may stand.
pub fn linked_of(alloc: Global, sections: &str) -> Result<Arc<Linked>, Fail> {
    guest_of(alloc, module_of(alloc, sections)?)
}

/// The bytes with a section after them that says nothing.
fn lengthened(alloc: Global, bytes: &[u8]) -> Result<Vec<u8>, AllocError> {
    let mut bytes = Vec::from_slice(alloc, bytes)?;
    bytes.extend_from_slice(&[0x00, 0x02, 0x01, 0x78])?;
    Ok(bytes)
}

/// A guest with a section after it that says nothing, so its bytes are others.
pub fn with_custom_section(alloc: Global, guest: &Linked) -> Result<Arc<Linked>, Fail> {
    guest_of(alloc, lengthened(alloc, guest.valid().module().bytes())?)
}

fn loop_of(alloc: Global, guest: Arc<Linked>, loop_no: u32) -> Result<LoopCore<Desk>, AllocError> {
    let desk = Desk::new(alloc, loop_no)?;
    LoopCore::new(alloc, guest, desk, loop_no, FUEL, FUEL, DEPTH)
}

/// A loop of the guest with these sections over a desk, which has done nothing.
pub fn loop_at_desk(alloc: Global, sections: &str, loop_no: u32) -> Result<LoopCore<Desk>, Fail> {
    let guest = linked_of(alloc, sections)?;
    Ok(loop_of(alloc, guest, loop_no)?)
}
