// What breaks a rule in a section but that of code.

ghost use Rattle.std.specs.Prelude.{◌≡◌, ◌<◌, length, IfOk, IfSome, IsTrue};
ghost use Rattle.syntax.specs.declared.types.ValType.TheVariants.{I32};
ghost use Rattle.valid.specs.Typing.{type_of};
ghost use Rattle.valid.specs.Valid.{IsConstant};
ghost use Rattle.sentences.specs.declared.defect.Defect.TheVariants as defect;
ghost use Rattle.sentences.specs.Defects.{EntryNames, HaveOneName, IsDefectOfSection, section_of_entry, space_of_extern};

use crate::defect::{Defect, IndexSpace, SectionEntry};
use crate::memory::{RefusedText, export_name};
use crate::spaces::{count_in_module, dangling};
use limits::{MAX_IMPORT_RESULTS, MAX_RESULTS};
use places::{DATA, ELEMENTS, EXPORTS, FUNCTIONS, GLOBALS, IMPORTS, TYPES};
use std::alloc::Global;
use syntax::contents::{Contents, ExternKind, FuncType};
use syntax::initializer::Initializer;
use syntax::module::Module;
use syntax::types::{ValType, Value};
use valid::{type_at, type_of_function};

/// The id of the section of the start function (WebAssembly Core 1.0, 5.5.2).
const START: u8 = 8;

/// An index of an entry, if it names nothing.
fn past(contents: &Contents, entry: SectionEntry, space: IndexSpace, index: u32) -> Option<Defect>
    requires { EntryNames contents.now entry space index }
    ensures { IfSome result (IsDefectOfSection contents.now (section_of_entry entry)) }
{
    let count = count_in_module(contents, space);
    Some(Defect::EntryIndex(entry, dangling(space, index, count)?))
}

/// The results of an entry's function type, if they are more than so many.
fn many_results(entry: SectionEntry, func_type: &FuncType, most: usize) -> Option<Defect>
    ensures { IfSome result (λ told. (told ≡ defect.Results entry (length func_type.now.results) most) × (most < length func_type.now.results)) }
{
    let count = func_type.results.len();
    if count > most {
        return Some(Defect::Results { entry, count, most });
    }
    None
}

fn of_type(contents: &Contents, number: usize) -> Option<Defect>
    ensures { IfSome result (IsDefectOfSection contents.now 1) }
{
    let func_type = contents.types.get(number)?;
    many_results(SectionEntry::Type(number), func_type, MAX_RESULTS)
}

fn of_import(contents: &Contents, number: usize) -> Option<Defect>
    ensures { IfSome result (IsDefectOfSection contents.now 2) }
{
    let import = contents.imports.get(number)?;
    let entry = SectionEntry::Import(number);
    match type_at(contents, import.type_index) {
        Some(func_type) => many_results(entry, func_type, MAX_IMPORT_RESULTS),
        None => past(contents, entry, IndexSpace::Types, import.type_index),
    }
}

fn of_function(contents: &Contents, number: usize) -> Option<Defect>
    ensures { IfSome result (IsDefectOfSection contents.now 3) }
{
    let func = contents.functions.get(number)?;
    let entry = SectionEntry::Function(contents.imports.as_slice().len().checked_add(number)?);
    past(contents, entry, IndexSpace::Types, func.type_index)
}

fn type_of_value(value: Value) -> ValType
    ensures { result ≡ type_of value }
{
    match value {
        Value::I32(_) => ValType::I32,
        Value::I64(_) => ValType::I64,
    }
}

/// Whether an initializer is a single constant of this type.
fn is_constant(wanted: ValType, init: &Initializer) -> bool
    ensures { IsConstant wanted init.now → IsTrue result }
{
    match init.constant() {
        Some(value) => type_of_value(value) == wanted,
        None => false,
    }
}

fn of_global(contents: &Contents, number: usize) -> Option<Defect>
    ensures { IfSome result (IsDefectOfSection contents.now 6) }
{
    let global = contents.globals.get(number)?;
    let wanted = global.value_type;
    if is_constant(wanted, &global.init) {
        return None;
    }
    let entry = SectionEntry::Global(number);
    Some(Defect::NoConstant { entry, wanted })
}

fn space_of(kind: ExternKind) -> IndexSpace
    ensures { result ≡ space_of_extern kind }
{
    match kind {
        ExternKind::Func => IndexSpace::Functions,
        ExternKind::Table => IndexSpace::Tables,
        ExternKind::Memory => IndexSpace::Memories,
        ExternKind::Global => IndexSpace::Globals,
    }
}

/// Two exports with one name.
fn twice(
    alloc: Global,
    contents: &Contents,
    first: usize,
    second: usize,
    name: &[u8],
) -> Result<Defect, RefusedText>
    requires { HaveOneName contents.now first second name.now }
    ensures { IfOk result (IsDefectOfSection contents.now 7) }
{
    Ok(Defect::Twice {
        first,
        second,
        name: export_name(alloc, name)?,
    })
}

fn of_export(alloc: Global, module: &Module, number: usize) -> Result<Option<Defect>, RefusedText>
    ensures { IfOk result (λ found. IfSome found (IsDefectOfSection «module».now.contents 7)) }
{
    let contents = module.contents();
    let Some(export) = contents.exports.get(number) else {
        return Ok(None);
    };
    let name = export.name.as_slice();
    match module.export_place(name) {
        Some(first) if first < number => Ok(Some(twice(alloc, contents, first, number, name)?)),
        _ => Ok(past(
            contents,
            SectionEntry::Export(number),
            space_of(export.kind),
            export.index,
        )),
    }
}

fn of_start(contents: &Contents) -> Option<Defect>
    ensures { IfSome result (IsDefectOfSection contents.now 8) }
{
    let function = contents.start?;
    match type_of_function(contents, function) {
        Some(func_type) => Some(Defect::Start {
            function,
            params: func_type.params.len(),
            results: func_type.results.len(),
        }),
        None => past(
            contents,
            SectionEntry::Start,
            IndexSpace::Functions,
            function,
        ),
    }
}

/// An offset of a segment, if it is not a single constant.
fn no_offset(entry: SectionEntry, offset: &Initializer) -> Option<Defect>
    ensures { IfSome result (λ told. (told ≡ defect.NoConstant entry I32) × (IsConstant I32 offset.now → ⊥)) }
{
    let wanted = ValType::I32;
    if is_constant(wanted, offset) {
        return None;
    }
    Some(Defect::NoConstant { entry, wanted })
}

fn of_element(contents: &Contents, number: usize) -> Option<Defect>
    ensures { IfSome result (IsDefectOfSection contents.now 9) }
{
    let element = contents.elements.get(number)?;
    let entry = SectionEntry::Element(number);
    if let Some(found) = past(contents, entry, IndexSpace::Tables, element.table) {
        return Some(found);
    }
    if let Some(found) = no_offset(entry, &element.offset) {
        return Some(found);
    }
    for at in 0..element.functions.len() {
        let function = *element.functions.get(at)?;
        if let Some(found) = past(contents, entry, IndexSpace::Functions, function) {
            return Some(found);
        }
    }
    None
}

fn of_data(contents: &Contents, number: usize) -> Option<Defect>
    ensures { IfSome result (IsDefectOfSection contents.now 11) }
{
    let segment = contents.data.get(number)?;
    let entry = SectionEntry::Data(number);
    if let Some(found) = past(contents, entry, IndexSpace::Memories, segment.memory) {
        return Some(found);
    }
    no_offset(entry, &segment.offset)
}

/// What breaks a rule at the entry with this number of a section.
fn of_entry(
    alloc: Global,
    module: &Module,
    section: u8,
    number: usize,
) -> Result<Option<Defect>, RefusedText>
    ensures { IfOk result (λ found. IfSome found (IsDefectOfSection «module».now.contents section)) }
{
    let contents = module.contents();
    Ok(match section {
        TYPES => of_type(contents, number),
        IMPORTS => of_import(contents, number),
        FUNCTIONS => of_function(contents, number),
        GLOBALS => of_global(contents, number),
        EXPORTS => of_export(alloc, module, number)?,
        START => of_start(contents),
        ELEMENTS => of_element(contents, number),
        DATA => of_data(contents, number),
        _ => None,
    })
}

/// How many entries a section has.
fn count_of(contents: &Contents, section: u8) -> usize {
    match section {
        TYPES => contents.types.len(),
        IMPORTS => contents.imports.len(),
        FUNCTIONS => contents.functions.len(),
        GLOBALS => contents.globals.len(),
        EXPORTS => contents.exports.len(),
        START => 1,
        ELEMENTS => contents.elements.len(),
        DATA => contents.data.len(),
        _ => 0,
    }
}

/// What breaks a rule in a section, in its first entry that breaks one.
pub fn section_defect(
    alloc: Global,
    module: &Module,
    section: u8,
) -> Result<Option<Defect>, RefusedText>
    ensures { IfOk result (λ found. IfSome found (IsDefectOfSection «module».now.contents section)) }
{
    for number in 0..count_of(module.contents(), section) {
        if let Some(found) = of_entry(alloc, module, section, number)? {
            return Ok(Some(found));
        }
    }
    Ok(None)
}
