// The check of a module.

ghost use Rattle.std.specs.Prelude.{◌≡◌, ◌≤◌, ◌↔◌, ◌⊎◌, length, slice_get, All, IsTrue, OnOk, IfOk, IfErr, IfSome, MatchOption, Ok, Err, Some};
ghost use Rattle.limits.specs.declared.TheConstants.{MAX_FUNCTIONS};
ghost use Rattle.validate.specs.declared.fault.ValidFault.TheVariants as fault;
ghost use Rattle.validate.specs.Refusals.{Refutes};
ghost use Rattle.validate.specs.Sites.{BreaksAt};
ghost use Rattle.validate.specs.declared.site.InvalidPart.TheVariants as site;
ghost use Rattle.valid.specs.Targets.{AreTables, IsTableFor};
ghost use Rattle.valid.specs.Valid.{ValidFunc, ValidModule};
ghost use Rattle.validate.specs.Inner.Room.{TakesFew, HasRoomForEntries};

use crate::body::check_function;
use crate::fault::ValidFault;
use crate::parts::{
    check_data, check_elements, check_exports, check_function_types, check_globals, check_imports,
    check_start, check_types,
};
use crate::site::{InvalidAt, InvalidPart};
use limits::MAX_RESULTS;
use std::alloc::{AllocError, Global};
use std::sync::Arc;
use syntax::contents::{Contents, Func};
use syntax::items::Items;
use syntax::module::Module;
use valid::{SideTable, Valid};

/// The defined function with this number has a body of its type. Gives its side table.
fn check_numbered(
    alloc: Global,
    contents: &Contents,
    func: &Func,
    number: usize,
) -> Result<SideTable, InvalidAt>
    requires results { All (λ t. length t.results ≤ MAX_RESULTS) contents.now.types }
    requires params { All TakesFew contents.now.types }
    requires room { HasRoomForEntries func.now }
    requires numbered { slice_get contents.now.functions number ≡ Some func.now }
    ensures valid { IfOk result (λ _. ValidFunc contents.now func.now) }
    ensures told { IfOk result (λ table. IsTableFor contents.now func.now table) }
    ensures refused { IfErr result (λ r. BreaksAt contents.now r.fault r.site) }
{
    match check_function(alloc, contents, func) {
        Ok(table) => Ok(table),
        Err(refused) => Err(refused.in_function(number)),
    }
}

/// Each defined function has a body of its type. Gives the side table of each.
fn check_functions(alloc: Global, contents: &Contents) -> Result<Items<SideTable>, InvalidAt>
    requires results { All (λ t. length t.results ≤ MAX_RESULTS) contents.now.types }
    requires params { All TakesFew contents.now.types }
    requires room { All HasRoomForEntries contents.now.functions }
    requires few { length contents.now.functions ≤ MAX_FUNCTIONS }
    ensures valid { IfOk result (λ _. All (ValidFunc contents.now) contents.now.functions) }
    ensures told { IfOk result (λ tables. AreTables contents.now tables) }
    ensures refused { IfErr result (λ r. BreaksAt contents.now r.fault r.site) }
{
    let mut tables = Vec::new(alloc);
    for func in contents.functions.as_slice() {
        let table = check_numbered(alloc, contents, func, tables.len())?;
        tables.push(table)?;
    }
    tables.shrink_to_fit();
    Ok(Items::from_vec(tables))
}

/// What is found in the section with this id.
fn in_section(id: u8, checked: Result<(), ValidFault>) -> Result<(), InvalidAt>
    ensures passed { OnOk result (checked ≡ Ok tt) }
    ensures refused { IfErr result (λ r. checked ≡ Err r.fault) }
    ensures placed { IfErr result (λ r. r.site ≡ site.Section id) }
{
    match checked {
        Ok(()) => Ok(()),
        Err(fault) => Err(InvalidAt {
            fault,
            site: InvalidPart::Section(id),
        }),
    }
}

/// The first fault that is met in the module's parts, in the order of its sections; where there is none, the side
/// tables of its functions.
fn check_contents(alloc: Global, module: &Module) -> Result<Items<SideTable>, InvalidAt>
    ensures valid { OnOk result (ValidModule «module».now.contents) }
    ensures told { IfOk result (λ tables. AreTables «module».now.contents tables) }
    ensures refused { IfErr result (λ r. BreaksAt «module».now.contents r.fault r.site) }
{
    let contents = module.contents();
    in_section(1, check_types(contents))?;
    in_section(2, check_imports(contents))?;
    in_section(3, check_function_types(contents))?;
    in_section(6, check_globals(contents))?;
    in_section(7, check_exports(module))?;
    in_section(8, check_start(contents))?;
    in_section(9, check_elements(contents))?;
    let tables = check_functions(alloc, contents)?;
    in_section(11, check_data(contents))?;
    Ok(tables)
}

/// Validates a module (WebAssembly Core 1.0, chapter 3, with the sign extensions, block types by index and
/// several results of Core 2.0). The first fault that is met is reported: the parts of the module are checked in
/// the order of their sections, and a body from start to end. A valid module comes back unchanged, with the
/// bytes that it was read from. No valid module has a fault other than `Memory`.
#[tactic(auto, using(crate::proofs::Tables::lent))]
pub fn validate(alloc: Global, module: Module) -> Result<Valid, ValidFault>
    ensures valid { OnOk result (ValidModule «module».contents) }
    ensures same { IfOk result (λ v. v ≡ «module») }
    ensures refused { IfErr result (Refutes «module».contents) }
    ensures invalid { IfErr result (λ e. (e ≡ fault.Memory) ⊎ (ValidModule «module».contents → ⊥)) }
{
    let tables = check_contents(alloc, &module)?;
    let tables = Arc::new(alloc, tables)?;
    Ok(Valid::new(module, tables))
}

/// Why `validate` refuses a module, and where in it; nothing where it is valid. A section breaks the rule of the fault itself, a function
/// in its type or its locals; the operations up to the one that is named, and with it, break it whatever follows them.
pub fn refused_at(alloc: Global, module: &Module) -> Option<InvalidAt>
    ensures refused { MatchOption result (ValidModule «module».now.contents) (λ r. Refutes «module».now.contents r.fault) }
    ensures placed { IfSome result (λ r. BreaksAt «module».now.contents r.fault r.site) }
    ensures invalid { IfSome result (λ r. (r.fault ≡ fault.Memory) ⊎ (ValidModule «module».now.contents → ⊥)) }
{
    check_contents(alloc, module).err()
}
