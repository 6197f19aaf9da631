// What is called.

use syntax::contents::Contents;
use syntax::types::Value;
use valid::SideTable;

/// What a module runs: its contents, and the side tables that its validation wrote.
#[derive(Clone, Copy)]
pub struct ModuleCode<'a> {
    pub contents: &'a Contents,
    pub tables: &'a [SideTable],
}

/// A call of a function from outside: of which, with which arguments and how much fuel, and how many calls may stand open, it among
/// them.
#[derive(Clone, Copy)]
pub struct FunctionCall<'a> {
    pub function: u32,
    pub args: &'a [Value],
    pub fuel: u64,
    pub depth: u32,
}
