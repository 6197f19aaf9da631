// What a module contains (WebAssembly Core 1.0, 2.5).

use crate::body::Body;
use crate::initializer::Initializer;
use crate::items::Items;
use crate::short_list::{Name, TypeList};
use crate::types::{Limits, ValType};

/// The type of a function.
#[derive(Drop)]
pub struct FuncType {
    pub params: TypeList,
    pub results: TypeList,
}

/// An imported function. Its names are UTF-8.
#[derive(Drop)]
pub struct Import {
    pub module: Name,
    pub name: Name,
    pub type_index: u32,
}

/// A defined function. Its locals come after its parameters.
#[derive(Drop)]
pub struct Func {
    pub type_index: u32,
    pub locals: TypeList,
    pub body: Body,
}

/// Whether a global may be set.
#[derive(Clone, Copy, Debug, PartialEq, Eq)]
pub enum Mutability {
    Const,
    Var,
}

/// A global of a module, with its initializer.
#[derive(Drop)]
pub struct Global {
    pub value_type: ValType,
    pub mutability: Mutability,
    pub init: Initializer,
}

/// What an export names.
#[derive(Clone, Copy, Debug, PartialEq, Eq)]
pub enum ExternKind {
    Func,
    Table,
    Memory,
    Global,
}

/// An export: its name, in UTF-8, and what it names, by kind and index.
#[derive(Drop)]
pub struct ModuleExport {
    pub name: Name,
    pub kind: ExternKind,
    pub index: u32,
}

/// An element segment: functions that are written into a table, from the offset on.
#[derive(Drop)]
pub struct Element {
    pub table: u32,
    pub offset: Initializer,
    pub functions: Items<u32>,
}

/// A data segment: bytes that are written into a memory, from the offset on.
#[derive(Drop)]
pub struct Data {
    pub memory: u32,
    pub offset: Initializer,
    pub bytes: Items<u8>,
}

/// What a module contains, by the order of its sections. Functions are counted from the imported ones on.
#[derive(Drop)]
pub struct Contents {
    pub types: Items<FuncType>,
    pub imports: Items<Import>,
    pub functions: Items<Func>,
    pub table: Option<Limits>,
    pub memory: Option<Limits>,
    pub globals: Items<Global>,
    pub exports: Items<ModuleExport>,
    pub start: Option<u32>,
    pub elements: Items<Element>,
    pub data: Items<Data>,
}
