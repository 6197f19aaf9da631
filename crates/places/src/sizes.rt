// The numbers of a section of tables or memories (WebAssembly Core 2.0, 5.3.7 to 5.3.9, 5.5.7 and 5.5.8).

ghost use Rattle.std.specs.Prelude.{◌≤◌, ◌<◌, List, ℕ, Option, drop, length, IfSome, IfNone};
ghost use Rattle.syntax.specs.Language.{Leaves};
ghost use Rattle.places.specs.Walks.{IsTheOne};
ghost use Rattle.places.specs.Told.{told_limits, told_type, HasSizes};

use crate::spans::{TABLES, held_in, number_at};

/// What a section of tables or memories says, as far as it can be read.
#[derive(Clone, Copy, Debug)]
pub struct Sizes {
    /// How many there are.
    pub count: u32,
    /// How many elements or pages the first of them begins with.
    pub first: u32,
    /// How many it may have at most, where that is known.
    pub most: Option<u32>,
}

/// The limits at this byte: the least number, and the greatest where their flag says that there is one.
fn limits_at(bytes: &[u8], at: usize) -> Option<(u32, Option<u32>)>
    ensures found { IfSome result (λ l. (rest : List ℕ) × Leaves (told_limits l.0 l.1) (drop at bytes.now) rest) }
    ensures inside { IfSome result (λ l. at < length bytes.now) }
    ensures none { IfNone result ((first : ℕ) (most : Option ℕ) (rest : List ℕ) → Leaves (told_limits first most) (drop at bytes.now) rest → ⊥) }
{
    if at >= bytes.len() {
        return None;
    }
    let (first, behind) = number_at(bytes, at + 1)?;
    if bytes[at] != 1 {
        return Some((first, None));
    }
    let (most, _) = number_at(bytes, behind)?;
    Some((first, Some(most)))
}

/// The limits of the type of a table or a memory, which begins at this byte.
fn type_at(bytes: &[u8], section: u8, at: usize) -> Option<(u32, Option<u32>)>
    requires { at ≤ length bytes.now }
    ensures found { IfSome result (λ l. (rest : List ℕ) × Leaves (told_type section l.0 l.1) (drop at bytes.now) rest) }
    ensures none { IfNone result ((first : ℕ) (most : Option ℕ) (rest : List ℕ) → Leaves (told_type section first most) (drop at bytes.now) rest → ⊥) }
{
    if section == TABLES {
        return limits_at(bytes, at + 1);
    }
    limits_at(bytes, at)
}

/// The numbers of the section with this id, which is that of tables or of memories.
pub fn sizes_of(bytes: &[u8], section: u8) -> Option<Sizes>
    ensures { IsTheOne (HasSizes bytes.now section) result }
{
    let (held, _) = held_in(bytes, section)?;
    let (count, from) = number_at(held, 0)?;
    let (first, most) = type_at(held, section, from)?;
    Some(Sizes { count, first, most })
}
