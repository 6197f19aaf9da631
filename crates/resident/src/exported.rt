// What a module exports under a name.

ghost use Rattle.std.specs.Prelude.{IfSome, MatchOption};
ghost use Rattle.syntax.specs.Exporting.{IsFirst, IsFirstPlace};
ghost use Rattle.valid.specs.Typing.{HasFunctionType};
ghost use Rattle.resident.specs.Calls.{ExportsFirst, ExportsNoFunction, ExportsGlobal, ExportsNoGlobal};
ghost use Rattle.resident.specs.Numbered.{HasNoType, ExportsAt, ExportsNoFunctionAt, NumbersExport};

use instance::state::State;
use syntax::contents::{ExternKind, FuncType};
use syntax::export::Export;
use syntax::module::Module;
use syntax::types::Value;
use valid::{Valid, type_of_function};

/// The first export with this name.
pub(crate) fn export(module: &Module, name: &[u8]) -> Option<Export>
    ensures { IsFirst «module».now.contents.exports name.now result }
{
    let export = module.contents().exports.get(module.export_place(name)?)?;
    Some(Export {
        kind: export.kind,
        index: export.index,
    })
}

/// The function that is exported under a name, with its type, where there is one.
#[tactic(auto, using(crate::proofs::Refused::untyped))]
pub fn exported_function<'a>(valid: &'a Valid, name: &[u8]) -> Option<(u32, &'a FuncType)>
    ensures named { MatchOption result (ExportsNoFunction valid.now.contents name.now) (λ found. ExportsFirst valid.now.contents name.now found.0) }
    ensures typed { IfSome result (λ found. HasFunctionType valid.now.contents found.0 found.1.now) }
{
    let export = export(valid.module(), name)?;
    match export.kind {
        ExternKind::Func => {
            let func_type = type_of_function(valid.contents(), export.index)?;
            Some((export.index, func_type))
        }
        _ => None,
    }
}

/// The type of a function, where there is one.
#[tactic(auto, using(crate::proofs::Refused::untyped))]
pub(crate) fn type_of(valid: &Valid, function: u32) -> Option<&FuncType>
    ensures { MatchOption result (HasNoType valid.now.contents function) (λ found. HasFunctionType valid.now.contents function found.now) }
{
    type_of_function(valid.contents(), function)
}

/// The function that the export of this number is, with its type, where there is one. Exports are counted from 0.
#[tactic(auto, using(crate::proofs::Refused::untyped))]
pub fn function_at<'a>(valid: &'a Valid, number: usize) -> Option<(u32, &'a FuncType)>
    ensures numbered { MatchOption result (ExportsNoFunctionAt valid.now.contents number) (λ found. ExportsAt valid.now.contents number found.0) }
    ensures typed { IfSome result (λ found. HasFunctionType valid.now.contents found.0 found.1.now) }
{
    let contents = valid.contents();
    let export = contents.exports.get(number)?;
    if export.kind != ExternKind::Func {
        return None;
    }
    let func_type = type_of_function(contents, export.index)?;
    Some((export.index, func_type))
}

/// The place of the first export with this name.
fn export_place(valid: &Valid, name: &[u8]) -> Option<usize>
    ensures { IsFirstPlace valid.now.contents.exports name.now result }
{
    valid.module().export_place(name)
}

/// The number of the export that is the function with this name, where there is one.
#[tactic(auto, using(crate::proofs::Numbered::unnamed))]
pub fn export_number(valid: &Valid, name: &[u8]) -> Option<usize>
    ensures { MatchOption result (ExportsNoFunction valid.now.contents name.now) (NumbersExport valid.now.contents name.now) }
{
    let number = export_place(valid, name)?;
    let _function = function_at(valid, number)?;
    Some(number)
}

/// The value that an instance of this module has in the global that is exported under a name, where there is one.
pub fn exported_global(valid: &Valid, store: &State, name: &[u8]) -> Option<Value>
    ensures { MatchOption result (ExportsNoGlobal valid.now.contents name.now store.now.globals) (ExportsGlobal valid.now.contents name.now store.now.globals) }
{
    let export = export(valid.module(), name)?;
    match export.kind {
        ExternKind::Global => store.global(export.index),
        _ => None,
    }
}
