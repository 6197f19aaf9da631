// What breaks a rule at an instruction.

ghost use Rattle.std.specs.Prelude.{◌≡◌, ◌≤◌, ◌<◌, ◌+◌, ◌^◌, ◌⊎◌, ℕ, suc, length, IfSome, Some, slice_get};
ghost use Rattle.sentences.specs.declared.defect.Defect.TheVariants as defect;
ghost use Rattle.sentences.specs.Defects.{Accesses, BlockNames, InstrNames, IsDefectOfBody, IsDefectOfOperation, IsPast, OperationNames};
ghost use Rattle.sentences.specs.Defects.{open_before, open_behind};
ghost use Rattle.valid.specs.Typing.{bytes_of_type, bytes_of_width};

use crate::defect::{Dangling, Defect, IndexSpace};
use crate::spaces::{count_in_function, dangling};
use syntax::contents::{Contents, Func};
use syntax::instruction::{Instr, Token};
use syntax::operator::Width;
use syntax::ops::Ops;
use syntax::types::{BlockType, ValType};
use validate::ValidFault;

/// An index, and its space.
#[derive(Clone, Copy)]
struct SpaceIndex {
    space: IndexSpace,
    index: u32,
}

fn at(space: IndexSpace, index: u32) -> Option<SpaceIndex>
    ensures { result ≡ Some (record { space = space; index = index }) }
{
    Some(SpaceIndex { space, index })
}

/// The first of the labels of a `br_table` that is none of so many.
fn first_past(labels: &[u32], default: u32, count: usize) -> u32
    ensures { ((k : ℕ) × (slice_get labels.now k ≡ Some result)) ⊎ (result ≡ default) }
{
    for at in 0..labels.len() {
        if count <= labels[at] as usize {
            return labels[at];
        }
    }
    default
}

/// The first table or memory, where the instruction needs it.
fn needed_by(instr: &Instr<'_>) -> Option<SpaceIndex>
    ensures { IfSome result (λ found. InstrNames instr.now found.space found.index) }
{
    match instr {
        Instr::CallIndirect(_) => at(IndexSpace::Tables, 0),
        Instr::Load(..)
        | Instr::LoadNarrow(..)
        | Instr::Store(..)
        | Instr::StoreNarrow(..)
        | Instr::MemorySize
        | Instr::MemoryGrow => at(IndexSpace::Memories, 0),
        _ => None,
    }
}

/// The index that stands in an instruction. Of those of a `br_table` it is one that is none of so many labels, if there is one.
fn named_by(instr: &Instr<'_>, labels: usize) -> Option<SpaceIndex>
    ensures { IfSome result (λ found. InstrNames instr.now found.space found.index) }
{
    match instr {
        Instr::Call(function) => at(IndexSpace::Functions, *function),
        Instr::CallIndirect(type_index) => at(IndexSpace::Types, *type_index),
        Instr::LocalGet(local) | Instr::LocalSet(local) | Instr::LocalTee(local) => {
            at(IndexSpace::Locals, *local)
        }
        Instr::GlobalGet(global) | Instr::GlobalSet(global) => at(IndexSpace::Globals, *global),
        Instr::Br(label) | Instr::BrIf(label) => at(IndexSpace::Labels, *label),
        Instr::BrTable(all, default) => {
            at(
                IndexSpace::Labels,
                first_past(all.as_slice(), *default, labels),
            )
        }
        _ => None,
    }
}

/// The index of the type of a block.
fn named_by_block(block: BlockType) -> Option<SpaceIndex>
    ensures { IfSome result (λ found. BlockNames block found.space found.index) }
{
    match block {
        BlockType::Index(type_index) => at(IndexSpace::Types, type_index),
        _ => None,
    }
}

/// A function, as an instruction of its body sees it, where there are so many labels.
#[derive(Clone, Copy)]
struct Around<'a> {
    contents: &'a Contents,
    func: &'a Func,
    labels: usize,
}

impl Around<'_> {
    /// The index, if it names nothing.
    fn past(&self, found: SpaceIndex) -> Option<Dangling>
        ensures same { IfSome result (λ d. (d.space ≡ found.space) × (d.index ≡ found.index)) }
        ensures past { IfSome result (IsPast self.now.contents.now self.now.func.now self.now.labels) }
    {
        let SpaceIndex { space, index } = found;
        let count = count_in_function(self.contents, self.func, self.labels, space);
        dangling(space, index, count)
    }

    fn of_instr(&self, instr: &Instr<'_>) -> Option<Dangling>
        ensures named { IfSome result (λ d. InstrNames instr.now d.space d.index) }
        ensures past { IfSome result (IsPast self.now.contents.now self.now.func.now self.now.labels) }
    {
        if let Some(needed) = needed_by(instr) {
            if let Some(missing) = self.past(needed) {
                return Some(missing);
            }
        }
        self.past(named_by(instr, self.labels)?)
    }

    /// The index of an operation that names nothing.
    fn of_operation(&self, operation: &Token<'_>) -> Option<Dangling>
        ensures named { IfSome result (λ d. OperationNames operation.now d.space d.index) }
        ensures past { IfSome result (IsPast self.now.contents.now self.now.func.now self.now.labels) }
    {
        match operation {
            Token::Plain(instr) => self.of_instr(instr),
            Token::Block(block) | Token::Loop(block) | Token::If(block) => {
                self.past(named_by_block(*block)?)
            }
            Token::Else | Token::End => None,
        }
    }
}

fn bytes_of_type(value_type: ValType) -> u32
    ensures { result ≡ bytes_of_type value_type }
{
    match value_type {
        ValType::I32 => 4,
        ValType::I64 => 8,
    }
}

fn bytes_of_width(width: Width) -> u32
    ensures { result ≡ bytes_of_width width }
{
    match width {
        Width::One => 1,
        Width::Two => 2,
        Width::Four => 4,
    }
}

/// Of an access its alignment and how many bytes it accesses.
fn alignment(operation: &Token<'_>) -> Option<Defect>
    ensures { IfSome result (λ told. (power : ℕ) × (bytes : ℕ) × (told ≡ defect.Alignment power bytes) × Accesses operation.now power bytes) }
{
    let (power, bytes) = match operation {
        Token::Plain(Instr::Load(value_type, at) | Instr::Store(value_type, at)) => {
            (at.align, bytes_of_type(*value_type))
        }
        Token::Plain(Instr::LoadNarrow(_, width, _, at) | Instr::StoreNarrow(_, width, at)) => {
            (at.align, bytes_of_width(*width))
        }
        _ => return None,
    };
    Some(Defect::Alignment { power, bytes })
}

/// What breaks the rule of this fault at an operation.
fn at_operation(fault: ValidFault, around: &Around<'_>, operation: &Token<'_>) -> Option<Defect>
    ensures { IfSome result (IsDefectOfOperation around.now.contents.now around.now.func.now around.now.labels operation.now) }
{
    match (fault, operation) {
        (ValidFault::Index | ValidFault::Label, _) => {
            Some(Defect::Index(around.of_operation(operation)?))
        }
        (ValidFault::Align, _) => alignment(operation),
        (ValidFault::Mutability, Token::Plain(Instr::GlobalSet(global))) => {
            Some(Defect::Immutable(*global))
        }
        _ => None,
    }
}

/// How many blocks are open behind an operation, where so many are before it.
fn open_behind(operation: &Token<'_>, depth: usize) -> usize
    requires { depth < 2 ^ 63 }
    ensures value { result ≡ open_behind operation.now depth }
    ensures few { result ≤ depth + 1 }
{
    match operation {
        Token::Block(_) | Token::Loop(_) | Token::If(_) => depth + 1,
        Token::End => depth.saturating_sub(1),
        _ => depth,
    }
}

/// How many labels there are at the operation with this number.
fn labels_at(ops: &Ops<'_>, number: usize) -> usize
    requires there { number ≤ length ops.now }
    requires few { length ops.now < 2 ^ 63 }
    ensures { result ≡ suc (open_before number ops.now 0) }
{
    let mut depth = 0;
    for at in 0..number {
        depth = open_behind(&ops.operation(at), depth);
    }
    depth + 1
}

/// What breaks the rule of this fault at the operation with this number, of the function with this number among those that have a body.
pub fn operation_defect(
    contents: &Contents,
    fault: ValidFault,
    function: usize,
    number: usize,
) -> Option<Defect>
    ensures { IfSome result (IsDefectOfBody contents.now function number) }
{
    let func = contents.functions.get(function)?;
    let ops = func.body.ops();
    if number >= ops.len() {
        return None;
    }
    let around = Around {
        contents,
        func,
        labels: labels_at(&ops, number),
    };
    at_operation(fault, &around, &ops.operation(number))
}
