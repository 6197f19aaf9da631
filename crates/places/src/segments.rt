// The segments of tables and memories, by their lengths alone (WebAssembly Core 2.0, 5.5.12 and 5.5.14).

ghost use Rattle.std.specs.Prelude.{◌≡◌, ℕ, List, drop, IfSome, IfNone};
ghost use Rattle.syntax.specs.Language.{Leaves};
ghost use Rattle.places.specs.Walks.{IsTheOne, FirstOf, LeavesNone};
ghost use Rattle.places.specs.Lengths.{operation, held_behind, HasNewer};

use crate::operations::{behind_integers, behind_operation};
use crate::spans::{DATA, held_in, number_at, sized};

const END: u8 = 0x0b;

/// The byte after the operations that begin at this byte and end with `end`.
fn behind_offset(bytes: &[u8], at: usize) -> Option<usize>
    ensures found { IfSome result (λ next. FirstOf operation (λ b. b ≡ 0x0b) (drop at bytes.now) 0x0b (drop next bytes.now)) }
    ensures none { IfNone result ((b : ℕ) (rest : List ℕ) → FirstOf operation (λ o. o ≡ 0x0b) (drop at bytes.now) b rest → ⊥) }
{
    let mut next = at;
    for _ in 0..bytes.len() {
        let behind = behind_operation(bytes, next)?;
        if bytes[next] == END {
            return Some(behind);
        }
        next = behind;
    }
    None
}

/// The byte after what a segment holds: so many bytes, or so many numbers.
fn behind_held(bytes: &[u8], section: u8, at: usize) -> Option<usize>
    ensures found { IfSome result (λ next. Leaves (held_behind section) (drop at bytes.now) (drop next bytes.now)) }
    ensures none { IfNone result (LeavesNone (held_behind section) (drop at bytes.now)) }
{
    if section == DATA {
        return Some(sized(bytes, at, at)?.to);
    }
    let (count, first) = number_at(bytes, at)?;
    behind_integers(bytes, first, count as usize)
}

/// The first segment that doesn't begin with 0, as each of WebAssembly 1.0 does: its number, and what it begins with.
pub fn first_newer(bytes: &[u8], section: u8) -> Option<(u32, u32)>
    ensures { IsTheOne (HasNewer bytes.now section) result }
{
    let (held, _) = held_in(bytes, section)?;
    let (count, mut at) = number_at(held, 0)?;
    for number in 0..count {
        let (first, behind) = number_at(held, at)?;
        if first != 0 {
            return Some((number, first));
        }
        let offset = behind_offset(held, behind)?;
        at = behind_held(held, section, offset)?;
    }
    None
}
