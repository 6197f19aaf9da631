// What is newer than WebAssembly 1.0, by the first byte that only it has (WebAssembly Core 3.0, 5.3 to 5.5).

use crate::help::{LOWERED, NARROW, NO_EXCEPTIONS, NO_THREADS, PLAIN};
use places::{DATA, EXPORTS, IMPORTS, MEMORIES, TABLES, TYPES};

/// A feature that the host does not support, and what helps.
#[derive(Clone, Copy)]
pub struct Proposal {
    pub name: &'static str,
    pub help: &'static str,
}

fn named(name: &'static str, help: &'static str) -> Proposal {
    Proposal { name, help }
}

/// The feature of the instructions that begin with fc and this byte.
fn of_fc(behind: Option<&u8>) -> Proposal {
    match behind {
        Some(0x00..=0x07) => named("saturating conversions", LOWERED),
        Some(0x08..=0x0b) => named("bulk memory", LOWERED),
        _ => named("bulk memory or reference types", PLAIN),
    }
}

/// The feature of the instructions that begin so. After a prefix byte, the next byte decides.
pub fn of_operation(bytes: &[u8], at: usize) -> Option<Proposal> {
    Some(match *bytes.get(at)? {
        0x06..=0x0a | 0x18 | 0x19 | 0x1f => named("exceptions", NO_EXCEPTIONS),
        0x12..=0x15 => named("tail calls and function references", PLAIN),
        0x1c => named("reference types", LOWERED),
        0x25 | 0x26 | 0xd0..=0xd2 => named("reference types", PLAIN),
        0xfb => named("garbage collection", PLAIN),
        0xfc => of_fc(bytes.get(at.checked_add(1)?)),
        0xfd => named("SIMD", PLAIN),
        0xfe => named("threads", NO_THREADS),
        _ => return None,
    })
}

/// What a section with this id is.
pub fn of_section(id: u8) -> Option<Proposal> {
    match id {
        12 => Some(named("a data count section, from bulk memory", LOWERED)),
        13 => Some(named("a tag section, from exceptions", NO_EXCEPTIONS)),
        _ => None,
    }
}

/// What a type is that begins with this byte.
pub fn of_type(byte: u8) -> Option<Proposal> {
    match byte {
        0x7b => Some(named("the type v128, from SIMD", PLAIN)),
        0x70 => Some(named("the type funcref, from reference types", PLAIN)),
        0x6f => Some(named("the type externref, from reference types", PLAIN)),
        0x69 => Some(named("the type exnref, from exceptions", NO_EXCEPTIONS)),
        _ => None,
    }
}

/// What this byte begins within a section.
pub fn in_section(section: u8, byte: u8) -> Option<Proposal> {
    match (section, byte) {
        (TYPES, 0x4e..=0x50 | 0x5e | 0x5f) => Some(named("a type from garbage collection", PLAIN)),
        (MEMORIES, 0x02 | 0x03) => Some(named("a shared memory, from threads", NO_THREADS)),
        (MEMORIES, 0x04..=0x07) => Some(named("a 64-bit memory", NARROW)),
        (TABLES, 0x02 | 0x03) => Some(named("a shared table, from threads", NO_THREADS)),
        (TABLES, 0x04..=0x07) => Some(named("a 64-bit table", NARROW)),
        (IMPORTS | EXPORTS, 0x04) => Some(named("a tag, from exceptions", NO_EXCEPTIONS)),
        _ => of_type(byte),
    }
}

/// What a segment is that begins with this number.
pub fn of_segment(section: u8, first: u32) -> Option<Proposal> {
    match (section, first) {
        (_, 0) => None,
        (DATA, 1) => Some(named("passive, from bulk memory", LOWERED)),
        (DATA, _) => Some(named("for an explicit memory index, from bulk memory", LOWERED)),
        (_, 1) => Some(named("passive, from bulk memory", LOWERED)),
        (_, 3) => Some(named("declarative, from reference types", LOWERED)),
        (_, 2) => Some(named("for an explicit table index, from reference types", LOWERED)),
        _ => Some(named("a list of expressions, from reference types", LOWERED)),
    }
}
