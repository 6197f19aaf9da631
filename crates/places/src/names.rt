// The names of functions, by a module's name section (WebAssembly Core 2.0, appendix, custom sections). It is read when a name
// is asked for, and by its lengths alone: where it is broken, names are missing.

ghost use Rattle.std.specs.Prelude.{◌≡◌, ◌<◌, ◌≤◌, ◌↔◌, IsTrue, List, ℕ, drop, length, slice_range, IfSome, IfNone, IsUtf8};
ghost use Rattle.syntax.specs.Language.{Leaves, counted as spells_counted};
ghost use Rattle.syntax.specs.Binary.{Section};
ghost use Rattle.places.specs.Walks.{NoneBegins, FirstOf};
ghost use Rattle.places.specs.Told.{IsLinking, IsObject};
ghost use Rattle.places.specs.Names.{HasParts, ListsName, IsNamedIn, FunctionIsNamed};

use crate::spans::{OPENING, number_at, section_at, sized};

/// The id of custom sections.
const CUSTOM: u8 = 0;

/// The id of the part that has the names of functions.
const FUNCTION_NAMES: u8 = 1;

/// The bytes that have their number at the start, and where they end.
fn counted(bytes: &[u8], at: usize) -> Option<(&[u8], usize)>
    ensures found { IfSome result (λ read. Leaves (spells_counted read.0.now) (drop at bytes.now) (drop read.1 bytes.now)) }
    ensures within { IfSome result (λ read. read.1 ≤ length bytes.now) }
    ensures none { IfNone result (NoneBegins spells_counted (drop at bytes.now)) }
{
    let span = sized(bytes, at, at)?;
    Some((&bytes[span.from..span.to], span.to))
}

/// The name of the custom section that compilers write into what is not yet linked.
const LINKING: &[u8] = b"linking";

/// The name of the custom section that has names.
const NAME: &[u8] = b"name";

/// Where the name ends with which these bytes begin, if it is the wanted one.
fn behind_name(held: &[u8], wanted: &[u8]) -> Option<usize>
    ensures found { IfSome result (λ behind. Leaves (spells_counted wanted.now) held.now (drop behind held.now)) }
    ensures within { IfSome result (λ behind. behind ≤ length held.now) }
    ensures none { IfNone result ((rest : List ℕ) → Leaves (spells_counted wanted.now) held.now rest → ⊥) }
{
    let (name, behind) = counted(held, 0)?;
    if name == wanted { Some(behind) } else { None }
}

/// Whether a section with this id that holds these bytes is one that is to be linked.
fn is_linking(id: u8, held: &[u8]) -> bool
    ensures { IsTrue result ↔ IsLinking (record { id = id; contents = held.now }) }
{
    if id != CUSTOM {
        return false;
    }
    match behind_name(held, LINKING) {
        Some(_) => true,
        None => false,
    }
}

/// Whether a module is an object file, which has to be linked: it has a custom section "linking".
pub fn is_object(bytes: &[u8]) -> bool
    ensures { IsTrue result ↔ IsObject bytes.now }
{
    let mut at = OPENING;
    for _ in 0..bytes.len() {
        match section_at(bytes, at) {
            Some((id, section)) => {
                if is_linking(id, &bytes[section.from..section.to]) {
                    return true;
                }
                at = section.to;
            }
            None => return false,
        }
    }
    false
}

/// The parts of a name section, if a section with this id that holds these bytes is one.
fn parts_of(id: u8, held: &[u8]) -> Option<&[u8]>
    ensures found { IfSome result (λ parts. HasParts (record { id = id; contents = held.now }) parts.now) }
    ensures none { IfNone result ((parts : List ℕ) → HasParts (record { id = id; contents = held.now }) parts → ⊥) }
{
    if id != CUSTOM {
        return None;
    }
    let behind = behind_name(held, NAME)?;
    Some(&held[behind..])
}

fn text_of(name: &[u8]) -> Option<&str>
    ensures found { IfSome result (λ text. (text.now ≡ name.now) × IsUtf8 name.now) }
    ensures none { IfNone result (IsUtf8 name.now → ⊥) }
{
    str::from_utf8(name).ok()
}

/// The name of this function in a list of numbers and names.
fn listed(list: &[u8], function: u32) -> Option<&str>
    ensures found { IfSome result (λ name. ListsName list.now function name.now) }
    ensures none { IfNone result ((name : List ℕ) → ListsName list.now function name → ⊥) }
{
    let (count, mut at) = number_at(list, 0)?;
    for _ in 0..count {
        let (number, next) = number_at(list, at)?;
        let (name, behind) = counted(list, next)?;
        if number == function {
            return text_of(name);
        }
        at = behind;
    }
    None
}

/// The name of this function in the parts of a name section.
fn named(parts: &[u8], function: u32) -> Option<&str>
    ensures found { IfSome result (λ name. IsNamedIn parts.now function name.now) }
    ensures none { IfNone result ((name : List ℕ) → IsNamedIn parts.now function name → ⊥) }
{
    let mut at = 0usize;
    for _ in 0..parts.len() {
        let (id, part) = section_at(parts, at)?;
        if id == FUNCTION_NAMES {
            return listed(&parts[part.from..part.to], function);
        }
        at = part.to;
    }
    None
}

/// The name that a module's name section gives a function, if it has one. Imported functions are counted first.
pub fn function_name(bytes: &[u8], function: u32) -> Option<&str>
    ensures found { IfSome result (λ name. FunctionIsNamed bytes.now function name.now) }
    ensures only { IfSome result (λ name. (other : List ℕ) → FunctionIsNamed bytes.now function other → other ≡ name.now) }
    ensures none { IfNone result ((name : List ℕ) → FunctionIsNamed bytes.now function name → ⊥) }
{
    let mut at = OPENING;
    for _ in 0..bytes.len() {
        let (id, section) = section_at(bytes, at)?;
        match parts_of(id, &bytes[section.from..section.to]) {
            Some(parts) => return named(parts, function),
            None => at = section.to,
        }
    }
    None
}
