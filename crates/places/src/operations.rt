// The operations of a body that was decoded: their names, and by their lengths alone their places (WebAssembly Core 1.0,
// 5.4, 5.5.13 and appendix, index of instructions; the sign extensions are those of WebAssembly Core 2.0).

ghost use Rattle.std.specs.Prelude.{◌≡◌, ◌≤◌, ◌<◌, ◌+◌, ◌*◌, ℕ, Some, [], ◌∷◌, drop, length, map, option_map, slice_get, IfSome, IfNone, OnSome};
ghost use Rattle.limits.specs.declared.TheConstants.{MAX_NESTING};
ghost use Rattle.syntax.specs.Language.{Leaves, u32, ◌⨾◌};
ghost use Rattle.places.specs.Walks.{IsTheOne, LeavesNone, NoneBegins, repeated};
ghost use Rattle.places.specs.Lengths.{integer, immediates_of, operation, IsInLocals};
ghost use Rattle.places.specs.Places.{IsPlaceOfOperation};
ghost use Rattle.places.specs.OperationNames.{name_at, name_of_opcode};
ghost use Rattle.places.specs.Spots.{decoded_as, lacks_else, opened_by, IsSpot, IsUnspelled};

use crate::index::NAMES;
use crate::place::Place;
use crate::spans::{CODE, body_at, body_with, find, function_of, number_at};
use limits::MAX_NESTING;
use std::marker::Model;

const BLOCK: u8 = 0x02;

const LOOP: u8 = 0x03;

const IF: u8 = 0x04;

const ELSE: u8 = 0x05;

const END: u8 = 0x0b;

const BR_TABLE: u8 = 0x0e;

/// How many blocks may be open, with the first one too many.
const MAX_OPEN: usize = MAX_NESTING + 1;

/// The byte after an integer.
fn behind_integer(bytes: &[u8], at: usize) -> Option<usize>
    ensures found { IfSome result (λ next. Leaves integer (drop at bytes.now) (drop next bytes.now)) }
    ensures order { IfSome result (λ next. (at < next) × (next ≤ length bytes.now)) }
    ensures none { IfNone result (LeavesNone integer (drop at bytes.now)) }
{
    for next in at..bytes.len() {
        if bytes[next] < 0x80 {
            return Some(next + 1);
        }
    }
    None
}

/// The byte after so many integers.
pub(crate) fn behind_integers(bytes: &[u8], at: usize, count: usize) -> Option<usize>
    ensures found { IfSome result (λ next. Leaves (repeated count integer) (drop at bytes.now) (drop next bytes.now)) }
    ensures order { IfSome result (λ next. at ≤ next) }
    ensures within { IfSome result (λ next. at ≤ length bytes.now → next ≤ length bytes.now) }
    ensures none { IfNone result (LeavesNone (repeated count integer) (drop at bytes.now)) }
{
    let mut next = at;
    for _ in 0..count {
        next = behind_integer(bytes, next)?;
    }
    Some(next)
}

/// How many integers and single bytes stand after an opcode, if it isn't that of `br_table`.
fn immediates(opcode: u8) -> usize
    ensures { result ≡ immediates_of opcode }
{
    match opcode {
        0x02..=0x04 | 0x0c | 0x0d | 0x10 | 0x20..=0x24 | 0x3f..=0x42 => 1,
        0x11 | 0x28..=0x3e => 2,
        _ => 0,
    }
}

/// The byte after the operation that begins at this byte.
pub(crate) fn behind_operation(bytes: &[u8], at: usize) -> Option<usize>
    ensures found { IfSome result (λ next. (b : ℕ) × (slice_get bytes.now at ≡ Some b) × Leaves (operation b) (drop at bytes.now) (drop next bytes.now)) }
    ensures inside { IfSome result (λ next. at < length bytes.now) }
    ensures order { IfSome result (λ next. at < next) }
    ensures none { IfNone result (NoneBegins operation (drop at bytes.now)) }
{
    if at >= bytes.len() {
        return None;
    }
    let opcode = bytes[at];
    if opcode == BR_TABLE {
        let (labels, first) = number_at(bytes, at + 1)?;
        return behind_integers(bytes, first, labels as usize + 1);
    }
    behind_integers(bytes, at + 1, immediates(opcode))
}

/// Where the first operation begins in what a body holds, after its locals.
fn first_operation(held: &[u8]) -> Option<usize>
    ensures found { IfSome result (λ first. (groups : ℕ) × Leaves (u32 groups ⨾ repeated (groups * 2) integer) held.now (drop first held.now)) }
    ensures within { IfSome result (λ first. first ≤ length held.now) }
    ensures none { IfNone result ((groups : ℕ) → LeavesNone (u32 groups ⨾ repeated (groups * 2) integer) held.now) }
{
    let (groups, first) = number_at(held, 0)?;
    behind_integers(held, first, groups as usize * 2)
}

/// Whether this byte of a body is one of its locals.
pub fn is_in_locals(bytes: &[u8], byte: usize) -> Option<bool>
    ensures { IsTheOne (IsInLocals bytes.now byte) result }
{
    let code = find(bytes, CODE)?;
    let (_, body) = body_with(bytes, code, byte)?;
    let first = first_operation(&bytes[body.from..body.to])?;
    Some(byte < body.from + first)
}

/// The blocks that are open, and of each whether it is an `if` whose `else` may still come.
#[derive(Drop)]
struct Blocks {
    ifs: [bool; MAX_OPEN],
    depth: usize,
}

impl Model for Blocks {
    ghost use Rattle.std.specs.Prelude.{◌≤◌, ◌+◌, List, Bool};
    ghost use Rattle.limits.specs.declared.TheConstants.{MAX_NESTING};
    ghost use Rattle.places.specs.Spots.{latest};

    ghost Value = { List Bool };

    ghost view = { λ a. latest a.ifs a.depth };

    ghost invariant = { λ a. a.depth ≤ MAX_NESTING + 1 };
}

impl Blocks {
    /// None are.
    fn new() -> Blocks
        ensures { result ≡ [] }
    {
        Blocks {
            ifs: [false; MAX_OPEN],
            depth: 0,
        }
    }

    fn are_few(&self)
        ensures { length self.now ≤ MAX_NESTING + 1 }
    {
        let _ = &self.ifs;
    }

    /// Begins a block, with one operation, unless too many are open.
    fn begin(&mut self, is_if: bool) -> Option<usize>
        ensures one { IfSome result (λ n. n ≡ 1) }
        ensures begun { OnSome result (self.new ≡ is_if ∷ self.old) }
        ensures few { OnSome result (length self.new ≤ MAX_NESTING + 1) }
        ensures full { IfNone result (MAX_NESTING + 1 ≤ length self.old) }
    {
        if self.depth >= MAX_OPEN {
            return None;
        }
        self.ifs[self.depth] = is_if;
        self.depth += 1;
        Some(1)
    }

    /// Ends the innermost block. Whether it was an `if` without an `else`.
    fn end(&mut self) -> bool
        ensures left { self.new ≡ drop 1 self.old }
        ensures few { length self.new ≤ MAX_NESTING + 1 }
        ensures value { result ≡ lacks_else self.old }
    {
        if self.depth == 0 {
            return false;
        }
        self.depth -= 1;
        self.ifs[self.depth]
    }

    /// Goes past an instruction with this opcode. As how many operations it is decoded, unless too many blocks are open.
    fn pass(&mut self, opcode: u8) -> Option<usize>
        ensures count { IfSome result (λ n. n ≡ decoded_as opcode self.old) }
        ensures left { OnSome result (self.new ≡ opened_by opcode self.old) }
        ensures few { OnSome result (length self.new ≤ MAX_NESTING + 1) }
        ensures none { IfNone result (MAX_NESTING + 1 < length (opened_by opcode self.old)) }
    {
        self.are_few();
        match opcode {
            BLOCK | LOOP => self.begin(false),
            IF => self.begin(true),
            ELSE => {
                self.end();
                self.begin(false)
            }
            END => Some(if self.end() { 2 } else { 1 }),
            _ => Some(1),
        }
    }
}

/// An instruction of a body: at which byte of what the body holds it begins, its number there, and its opcode.
#[derive(Clone, Copy)]
pub struct Spot {
    pub at: usize,
    pub number: usize,
    pub opcode: u8,
}

/// The instruction, in what a body holds, that is the operation of this index of the decoded body.
fn spot_of(held: &[u8], index: usize) -> Option<Spot>
    ensures spot { IsTheOne (IsSpot held.now index) result }
    ensures within { IfSome result (λ spot. spot.at < length held.now) }
{
    let mut at = first_operation(held)?;
    let mut left = index;
    let mut blocks = Blocks::new();
    for number in 0..held.len() {
        if at >= held.len() {
            return None;
        }
        let opcode = held[at];
        let count = blocks.pass(opcode)?;
        if left < count {
            return Some(Spot { at, number, opcode });
        }
        left -= count;
        at = behind_operation(held, at)?;
    }
    None
}

/// The name of the operation that begins with this byte, of those on floats too; None where none has it.
pub fn name_of(opcode: u8) -> Option<&'static str>
    ensures { option_map (λ name. name.now) result ≡ name_of_opcode opcode }
{
    name_among(&NAMES, opcode)
}

/// The name with this number among these, if there is one.
fn name_among(names: &[Option<&'static str>], number: u8) -> Option<&'static str>
    ensures { option_map (λ name. name.now) result ≡ name_at (map (option_map (λ name. name.now)) names.now) number }
{
    match names.get(usize::from(number)) {
        Some(name) => *name,
        None => None,
    }
}

/// The place of an operation of a function, by the function's number among those with bodies and the operation's in its body as it was
/// decoded, where each `if` has an `else`. In the place the number is that among the instructions that are spelled. There is none where no
/// instruction with a name is that operation.
pub fn place_of_operation(bytes: &[u8], function: usize, operation: usize) -> Option<Place>
    ensures place { IfSome result (IsPlaceOfOperation bytes.now function operation) }
    ensures none { IfNone result (IsUnspelled bytes.now function operation) }
{
    let body = body_at(bytes, find(bytes, CODE)?, function)?;
    let spot = spot_of(&bytes[body.from..body.to], operation)?;
    Some(Place::Operation {
        function: function_of(bytes, function),
        number: spot.number,
        name: name_of(spot.opcode)?,
        at: body.from + spot.at,
    })
}
