// The front of a memory: the bytes that are kept. After it all are zero.

ghost use Rattle.std.specs.Prelude.{◌≡◌, ◌+◌, ◌*◌, ◌≤◌, ◌<◌, nat_le, length, true, vec_capacity};
ghost use Rattle.instance.specs.Inner.Room.{all_bytes, rounded, lengthened_front};

use limits::PAGE_SIZE;

/// By how many bytes at a time a front is lengthened. A page has a whole number of them.
pub const STEP: usize = 1024;
/// By how many up to `NEAR`, so that a small memory keeps little more than was written.
pub const FINE_STEP: usize = 256;
/// The first bytes of a memory.
pub const NEAR: usize = 4096;

/// How many bytes so many pages have.
#[inline]
pub fn bytes_of_pages(pages: u32) -> usize
    ensures { result ≡ pages * PAGE_SIZE }
{
    pages as usize * PAGE_SIZE
}

/// Lengthens a front by zeros, so that it reaches over an end.
#[cold]
#[inline(never)]
fn lengthen(front: &mut Vec<u8>, end: usize)
    requires more { length front.old.items < end }
    requires room { rounded end ≤ vec_capacity front.old }
    ensures items { front.new.items ≡ lengthened_front end front.old.items }
    ensures capacity { vec_capacity front.old ≤ vec_capacity front.new }
{
    let step = if end <= NEAR { FINE_STEP } else { STEP };
    let Ok(()) = front.resize(end.next_multiple_of(step), 0) else {
        unreachable!();
    };
}

/// Lengthens the front of so many pages over so many bytes from an address on, where it doesn't reach over them yet. The
/// answer is whether they are all in the pages: else nothing is changed.
pub fn reach(front: &mut Vec<u8>, pages: u32, at: usize, len: usize) -> bool
    requires within { length front.old.items ≤ pages * PAGE_SIZE }
    requires room { pages * PAGE_SIZE ≤ vec_capacity front.old }
    ensures answer { result ≡ nat_le (at + len) (pages * PAGE_SIZE) }
    ensures there { result ≡ true → at + len ≤ length front.new.items }
    ensures same { all_bytes (pages * PAGE_SIZE) front.new.items ≡ all_bytes (pages * PAGE_SIZE) front.old.items }
    ensures within { length front.new.items ≤ pages * PAGE_SIZE }
    ensures capacity { vec_capacity front.old ≤ vec_capacity front.new }
{
    let all = bytes_of_pages(pages);
    if at > all || len > all - at {
        return false;
    }
    if at + len > front.len() {
        lengthen(front, at + len);
    }
    true
}
