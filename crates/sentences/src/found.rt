// What is found at the byte at which `decode` rejects a module, and what helps.

use crate::extension::{self, Proposal};
use crate::file_kind::{FileKind, kind_of_file};
use crate::help::{AGAIN, CUT, LOWERED, NO_TABLES, OPTIMIZED, PLAIN, SOFT};
use crate::reason::Reason;
use limits::{
    MAX_DECLARED_PAGES, MAX_EXPORTS, MAX_FUNCTIONS, MAX_GLOBALS, MAX_IMPORTS, MAX_LABELS,
    MAX_LOCALS, MAX_MODULE_BYTES, MAX_PAGES, MAX_PARAMS, MAX_TABLE_ELEMENTS, MAX_TYPES,
};
use places::{
    CODE, DATA, ELEMENTS, EXPORTS, FUNCTIONS, GLOBALS, IMPORTS, MEMORIES, OPENING, Part, Sizes,
    TABLES, TYPES, count_in, cut_short, first_newer, is_in_count, is_in_locals, name_of, sizes_of,
};

/// The version of a component, after the magic number.
const COMPONENT: &[u8] = &[0x0d, 0, 1, 0];

fn more_than(most: u32, things: &'static str) -> Reason {
    Reason::more_than(u64::from(most), things)
}

/// A byte that begins what is newer than WebAssembly 1.0.
fn newer(byte: u8, what: Proposal) -> Reason {
    Reason::byte(byte, what.name).with(what.help)
}

/// What bytes are that do not begin as a module does, if that is known.
pub fn format(bytes: &[u8]) -> Option<Reason> {
    let FileKind { name, help } = kind_of_file(bytes)?;
    Some(Reason::format(name).with(help))
}

/// What has another version than a module.
pub fn version(bytes: &[u8]) -> Option<Reason> {
    if bytes.get(4..OPENING)? != COMPONENT {
        return None;
    }
    let reason = Reason::words("the version is 0d 00 01 00: a component");
    Some(reason.with("this host runs core modules only"))
}

/// Where the bytes end too early: at once, within a section, or between two.
pub fn end(bytes: &[u8], at: usize, part: Option<Part>) -> Option<Reason> {
    if bytes.is_empty() {
        return Some(Reason::words("the module is empty").with(AGAIN));
    }
    if at < bytes.len() {
        return None;
    }
    match (cut_short(bytes), part) {
        (Some(cut), _) => Some(Reason::cut_short(cut).with(CUT)),
        (None, None) => Some(Reason::words("unexpected end of data").with(CUT)),
        (None, Some(_)) => None,
    }
}

/// How many functions and bodies there are.
pub fn counts(bytes: &[u8]) -> Reason {
    let (functions, bodies) = (count_in(bytes, FUNCTIONS), count_in(bytes, CODE));
    let reason = Reason::counts(functions, bodies);
    if bodies == 0 {
        reason.with(CUT)
    } else {
        reason
    }
}

/// Which segment of a section of segments is newer than WebAssembly 1.0.
pub fn segment(bytes: &[u8], section: u8) -> Option<Reason> {
    if section != ELEMENTS && section != DATA {
        return None;
    }
    let (number, first) = first_newer(bytes, section)?;
    let what = extension::of_segment(section, first)?;
    Some(Reason::segment(number, what.name).with(what.help))
}

/// What begins with an opcode that the host doesn't take.
pub fn opcode(bytes: &[u8], at: usize) -> Option<Reason> {
    let opcode = *bytes.get(at)?;
    Some(match (extension::of_operation(bytes, at), opcode) {
        (Some(extension), _) => newer(opcode, extension),
        (None, 0x05) => Reason::byte(opcode, "else without an if"),
        (None, _) => Reason::byte(opcode, "unknown opcode"),
    })
}

/// What is of another profile: a type, an import or an instruction.
pub fn profile(byte: u8) -> Option<Reason> {
    let reason = match byte {
        0x01 => Reason::byte(
            byte,
            "imported tables are not supported; link without --import-table",
        ),
        0x02 => Reason::byte(
            byte,
            "imported memories are not supported; link without --import-memory",
        ),
        0x03 => Reason::byte(
            byte,
            "imported globals are not supported; only functions can be imported",
        ),
        0x7c => Reason::byte(byte, "the type f64 is not supported").with(SOFT),
        0x7d => Reason::byte(byte, "the type f32 is not supported").with(SOFT),
        _ => Reason::operation(name_of(byte)?).with(SOFT),
    };
    Some(reason)
}

/// What a byte should be that is of no kind, in a function.
fn kind_in_function(byte: u8) -> Reason {
    match extension::of_type(byte) {
        Some(extension) => newer(byte, extension),
        None => Reason::byte(
            byte,
            "invalid type of a local or a block, or a reserved byte that is not 0",
        )
        .with(LOWERED),
    }
}

/// What a byte should be that is of no kind, in a section.
fn kind_in_section(section: u8, byte: u8) -> Reason {
    match (extension::in_section(section, byte), byte) {
        (Some(extension), _) => newer(byte, extension),
        (None, 0x63..=0x7b) => Reason::byte(byte, "unsupported type").with(PLAIN),
        (None, _) => Reason::byte(byte, "invalid kind of type, import, export or limits"),
    }
}

/// What a byte should be that is of no kind.
pub fn kind(byte: u8, part: Option<Part>) -> Reason {
    match part {
        Some(Part::Function(_)) => kind_in_function(byte),
        Some(Part::Section(section)) => kind_in_section(section, byte),
        None => match extension::of_section(byte) {
            Some(extension) => newer(byte, extension),
            None => Reason::byte(byte, "unknown section"),
        },
    }
}

/// Which limit a table exceeds.
fn of_tables(sizes: Sizes) -> Reason {
    if sizes.count > 1 {
        return Reason::words("more than one table");
    }
    if sizes.first > MAX_TABLE_ELEMENTS {
        return more_than(MAX_TABLE_ELEMENTS, "initial table elements");
    }
    Reason::words("the initial size of the table exceeds its maximum")
}

/// Which limit a memory exceeds.
fn of_memories(sizes: Sizes) -> Reason {
    if sizes.count > 1 {
        return Reason::words("more than one memory");
    }
    if sizes.first > MAX_PAGES {
        return more_than(MAX_PAGES, "initial memory pages").with(
            "reduce static data, or the stack with -z stack-size=65536",
        );
    }
    if sizes.most.is_some_and(|most| most > MAX_DECLARED_PAGES) {
        return more_than(MAX_DECLARED_PAGES, "maximum memory pages");
    }
    Reason::words("the initial size of the memory exceeds its maximum")
}

/// Which limit is meant in a section.
fn of_section(bytes: &[u8], at: usize, section: u8) -> Option<Reason> {
    Some(match section {
        TYPES if is_in_count(bytes, TYPES, at)? => more_than(MAX_TYPES, "types"),
        TYPES => more_than(MAX_PARAMS, "parameters of a function type"),
        IMPORTS => more_than(MAX_IMPORTS, "imports"),
        FUNCTIONS | CODE => more_than(MAX_FUNCTIONS, "functions"),
        TABLES => of_tables(sizes_of(bytes, TABLES)?),
        MEMORIES => of_memories(sizes_of(bytes, MEMORIES)?),
        GLOBALS => more_than(MAX_GLOBALS, "globals"),
        EXPORTS => more_than(MAX_EXPORTS, "exports"),
        _ => return None,
    })
}

/// Which limit is meant in a function.
fn in_function(bytes: &[u8], at: usize) -> Option<Reason> {
    if is_in_locals(bytes, at)? {
        return Some(Reason::more_than(MAX_LOCALS as u64, "locals").with(OPTIMIZED));
    }
    Some(more_than(MAX_LABELS, "labels of a br_table").with(NO_TABLES))
}

/// Which limit is meant at a byte of this part.
pub fn limit(bytes: &[u8], at: usize, part: Option<Part>) -> Option<Reason> {
    // (the whole length is looked at before all else, whatever the byte behind the last one lies in)
    if bytes.len() > MAX_MODULE_BYTES {
        return Some(Reason::longer_than(MAX_MODULE_BYTES as u64).with(
            "strip it with wasm-ld --strip-debug",
        ));
    }
    match part? {
        Part::Section(section) => of_section(bytes, at, section),
        Part::Function(_) => in_function(bytes, at),
    }
}
