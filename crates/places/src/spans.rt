// The sections and bodies of a module, by their sizes alone (WebAssembly Core 1.0, 5.5.2 and 5.5.13).

ghost use Rattle.std.specs.Prelude.{◌≡◌, ◌≤◌, ◌<◌, ◌+◌, ◌↔◌, IsTrue, ℕ, List, drop, length, slice_range, IfSome, IfNone};
ghost use Rattle.syntax.specs.Language.{Leaves, counted, u32 as spells_u32};
ghost use Rattle.syntax.specs.Binary.{Section, section};
ghost use Rattle.places.specs.Spans.{StandsBetween, SectionAt, FirstSectionAt, BodyAt, NoBody};
ghost use Rattle.places.specs.Walks.{IsTheOne, NoneBegins, FirstSection};
ghost use Rattle.places.specs.Places.{IsNumberOf, IsPlaceOfSection, IsPlaceOfFunction, IsPartWith};
ghost use Rattle.places.specs.Told.{BeginsWithCount, NoCount, IsCountIn, IsInCount, CutsShort, IsCutShort};

use crate::place::{Part, Place};
use leb::read_u32;

/// The id of the section of types.
pub const TYPES: u8 = 1;

/// The id of the section of imports.
pub const IMPORTS: u8 = 2;

/// The id of the section of functions.
pub const FUNCTIONS: u8 = 3;

/// The id of the section of tables.
pub const TABLES: u8 = 4;

/// The id of the section of memories.
pub const MEMORIES: u8 = 5;

/// The id of the section of globals.
pub const GLOBALS: u8 = 6;

/// The id of the section of exports.
pub const EXPORTS: u8 = 7;

/// The id of the section of element segments.
pub const ELEMENTS: u8 = 9;

/// The id of the section of bodies.
pub const CODE: u8 = 10;

/// The id of the section of data segments.
pub const DATA: u8 = 11;

/// How many bytes a module begins with, of the magic number and the version.
pub const OPENING: usize = 8;

/// Where something lies that has its size at the start.
#[derive(Clone, Copy)]
pub(crate) struct Span {
    /// Where it begins.
    pub at: usize,
    /// Where what it holds begins.
    pub from: usize,
    /// Where it ends.
    pub to: usize,
}

/// The integer at this byte, and where it ends.
pub(crate) fn number_at(bytes: &[u8], at: usize) -> Option<(u32, usize)>
    ensures here { IfSome result (λ n. Leaves (spells_u32 n.0) (drop at bytes.now) (drop n.1 bytes.now)) }
    ensures order { IfSome result (λ n. (at < n.1) × (n.1 ≤ length bytes.now)) }
    ensures none { IfNone result (NoneBegins spells_u32 (drop at bytes.now)) }
{
    let Ok((number, next)) = read_u32(bytes, at) else {
        return None;
    };
    Some((number, next))
}

/// The span whose size stands at this byte, and which begins so many bytes before.
pub(crate) fn sized(bytes: &[u8], at: usize, size_at: usize) -> Option<Span>
    ensures at { IfSome result (λ s. s.at ≡ at) }
    ensures here { IfSome result (λ s. StandsBetween (counted (slice_range bytes.now s.from s.to)) bytes.now size_at s.to) }
    ensures holds { IfSome result (λ s. s.from ≤ s.to) }
    ensures past { IfSome result (λ s. size_at < s.to) }
    ensures none { IfNone result (NoneBegins counted (drop size_at bytes.now)) }
{
    let Ok((size, from)) = read_u32(bytes, size_at) else {
        return None;
    };
    if size as usize > bytes.len() - from {
        return None;
    }
    let to = from + size as usize;
    Some(Span { at, from, to })
}

/// The section that begins at this byte, and its id.
pub(crate) fn section_at(bytes: &[u8], at: usize) -> Option<(u8, Span)>
    ensures at { IfSome result (λ s. s.1.at ≡ at) }
    ensures here { IfSome result (λ s. StandsBetween (section (record { id = s.0; contents = slice_range bytes.now s.1.from s.1.to })) bytes.now at s.1.to) }
    ensures holds { IfSome result (λ s. s.1.from ≤ s.1.to) }
    ensures past { IfSome result (λ s. at < s.1.to) }
    ensures none { IfNone result (NoneBegins section (drop at bytes.now)) }
{
    if at >= bytes.len() {
        return None;
    }
    let span = sized(bytes, at, at + 1)?;
    Some((bytes[at], span))
}

/// The first section with this id.
pub(crate) fn find(bytes: &[u8], id: u8) -> Option<Span>
    ensures found { IfSome result (λ s. FirstSectionAt bytes.now id s.at s.from s.to) }
    ensures none { IfNone result ((s : Section) (rest : List ℕ) → FirstSection bytes.now id s rest → ⊥) }
{
    let mut at = OPENING;
    for _ in 0..bytes.len() {
        let (found, section) = section_at(bytes, at)?;
        if found == id {
            return Some(section);
        }
        at = section.to;
    }
    None
}

/// What the first section with this id holds, and where that begins.
pub(crate) fn held_in(bytes: &[u8], id: u8) -> Option<(&[u8], usize)>
    ensures found { IfSome result (λ h. FirstSection bytes.now id (record { id = id; contents = h.0.now }) (drop (h.1 + length h.0.now) bytes.now)) }
    ensures within { IfSome result (λ h. h.1 + length h.0.now ≤ length bytes.now) }
    ensures none { IfNone result ((s : Section) (rest : List ℕ) → FirstSection bytes.now id s rest → ⊥) }
{
    let section = find(bytes, id)?;
    Some((&bytes[section.from..section.to], section.from))
}

/// The number with which what the first section with this id holds begins, and where that number ends.
fn count_at(bytes: &[u8], id: u8) -> Option<(u32, usize)>
    ensures found { IfSome result (λ c. BeginsWithCount bytes.now id c.0 c.1) }
    ensures none { IfNone result (NoCount bytes.now id) }
{
    let (held, from) = held_in(bytes, id)?;
    let (count, behind) = number_at(held, 0)?;
    Some((count, from + behind))
}

/// A section that says it has more bytes than the module: its id, how many it says, and how many there are.
#[derive(Clone, Copy)]
pub struct CutShort {
    pub section: u8,
    pub said: u32,
    pub left: usize,
}

/// The section that begins at this byte, if it says that it has more bytes than are left.
fn cut_at(bytes: &[u8], at: usize) -> Option<CutShort>
    ensures { IsTheOne (CutsShort (drop at bytes.now)) result }
{
    if at >= bytes.len() {
        return None;
    }
    let (said, from) = number_at(bytes, at + 1)?;
    let left = bytes.len() - from;
    if said as usize <= left {
        return None;
    }
    Some(CutShort {
        section: bytes[at],
        said,
        left,
    })
}

/// The section after whose size the bytes end too soon.
pub fn cut_short(bytes: &[u8]) -> Option<CutShort>
    ensures { IsTheOne (IsCutShort bytes.now) result }
{
    let mut at = OPENING;
    for _ in 0..bytes.len() {
        match section_at(bytes, at) {
            Some((_, section)) => at = section.to,
            None => return cut_at(bytes, at),
        }
    }
    None
}

/// The body of this number in a code section.
pub(crate) fn body_at(bytes: &[u8], code: Span, number: usize) -> Option<Span>
    ensures body { IfSome result (λ s. BodyAt bytes.now code.from number s.at s.from s.to) }
    ensures inside { IfSome result (λ s. (s.from ≤ s.to) × (s.to ≤ length bytes.now)) }
    ensures none { IfNone result ((at from to : ℕ) → BodyAt bytes.now code.from number at from to → ⊥) }
{
    let (count, mut at) = number_at(bytes, code.from)?;
    for index in 0..count {
        let span = sized(bytes, at, at)?;
        if index as usize == number {
            return Some(span);
        }
        at = span.to;
    }
    None
}

/// How many things the section with this id says that it holds.
pub fn count_in(bytes: &[u8], id: u8) -> u32
    ensures { IsCountIn bytes.now id result }
{
    match count_at(bytes, id) {
        Some((count, _)) => count,
        None => 0,
    }
}

/// The number of the function with this body. The imported functions are counted first: in the host's profile every import is a
/// function.
pub fn function_of(bytes: &[u8], body: usize) -> u64
    ensures { IsNumberOf bytes.now body result }
{
    u64::from(count_in(bytes, IMPORTS)).saturating_add(body as u64)
}

fn is_within(span: Span, byte: usize) -> bool
    ensures { IsTrue result ↔ ((span.at ≤ byte) × (byte < span.to)) }
{
    byte >= span.at && byte < span.to
}

/// The body of a code section that has this byte, and its number.
pub(crate) fn body_with(bytes: &[u8], code: Span, byte: usize) -> Option<(usize, Span)>
    ensures body { IfSome result (λ found. BodyAt bytes.now code.from found.0 found.1.at found.1.from found.1.to) }
    ensures has { IfSome result (λ found. (found.1.at ≤ byte) × (byte < found.1.to)) }
    ensures inside { IfSome result (λ found. (found.1.from ≤ found.1.to) × (found.1.to ≤ length bytes.now)) }
    ensures none { IfNone result (NoBody bytes.now code.from byte) }
{
    let (count, mut at) = number_at(bytes, code.from)?;
    for number in 0..count {
        let span = sized(bytes, at, at)?;
        if is_within(span, byte) {
            return Some((number as usize, span));
        }
        at = span.to;
    }
    None
}

/// The place of the section with this id.
pub fn place_of_section(bytes: &[u8], id: u8) -> Option<Place>
    ensures { IfSome result (IsPlaceOfSection bytes.now id) }
{
    let section = find(bytes, id)?;
    Some(Place::Section { id, at: section.at })
}

/// Whether this byte of the section with this id is one of the number of things that it holds.
pub fn is_in_count(bytes: &[u8], id: u8, byte: usize) -> Option<bool>
    ensures { IsTheOne (IsInCount bytes.now id byte) result }
{
    let (_, behind) = count_at(bytes, id)?;
    Some(byte < behind)
}

/// The place of a function, by its number among those with bodies.
pub fn place_of_function(bytes: &[u8], function: usize) -> Option<Place>
    ensures { IfSome result (IsPlaceOfFunction bytes.now function) }
{
    let body = body_at(bytes, find(bytes, CODE)?, function)?;
    Some(Place::Function {
        number: function_of(bytes, function),
        at: body.at,
    })
}

/// The section that has this byte after its id, and its id.
fn section_with(bytes: &[u8], byte: usize) -> Option<(u8, Span)>
    ensures here { IfSome result (λ s. (before : List Section) × SectionAt bytes.now before s.0 s.1.at s.1.from s.1.to) }
    ensures has { IfSome result (λ s. (s.1.at < byte) × (byte < s.1.to)) }
{
    let mut at = OPENING;
    for _ in 0..bytes.len() {
        let (id, section) = section_at(bytes, at)?;
        if byte > section.at && byte < section.to {
            return Some((id, section));
        }
        at = section.to;
    }
    None
}

/// The section that has this byte after its id, or the function where it is in a body.
pub fn part_with(bytes: &[u8], byte: usize) -> Option<Part>
    ensures { IfSome result (IsPartWith bytes.now byte) }
{
    let (id, section) = section_with(bytes, byte)?;
    if id == CODE
        && let Some((body, _)) = body_with(bytes, section, byte)
    {
        return Some(Part::Function(function_of(bytes, body)));
    }
    Some(Part::Section(id))
}
