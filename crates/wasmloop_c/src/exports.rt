// The exports of a module, in its order.

ghost use Rattle.std.specs.Prelude.{◌≡◌};
ghost use Rattle.wasmloop_c.specs.Calls.{ReadsHandle};
ghost use Rattle.wasmloop_c.specs.Exports.{ExportAt, kind_number, TellsExportAt, TellsTypeAt};

use crate::copying::copy_front;
use crate::handle::{Handle, on};
use crate::signature::{Signature, numbers};
use crate::status::{KIND, NONE, OK};
use crate::thing::Thing;
use imports::Linked;
use std::alloc::Global;
use syntax::contents::{Contents, ExternKind, ModuleExport};
use valid::type_of_function;

/// What an export is.
#[repr(C)]
#[derive(Clone, Copy)]
pub struct Listed {
    /// How many bytes its name has.
    pub length: u64,
    /// 0 a function, 1 a table, 2 a memory, 3 a global.
    pub kind: u32,
    /// 0.
    pub zero: u32,
}

fn kind_number(kind: ExternKind) -> u32
    ensures { result ≡ kind_number kind }
{
    match kind {
        ExternKind::Func => 0,
        ExternKind::Table => 1,
        ExternKind::Memory => 2,
        ExternKind::Global => 3,
    }
}

/// The type of an export that is a function.
fn tell_type(contents: &Contents, export: &ModuleExport, told: &mut Signature)
    ensures { TellsTypeAt contents.now export.now.kind export.now.index told.old told.new }
{
    if export.kind != ExternKind::Func {
        return;
    }
    if let Some(func_type) = type_of_function(contents, export.index) {
        *told = numbers(func_type);
    }
}

fn tell(
    linked: &Linked,
    number: u64,
    name: &mut [u8],
    export: &mut Listed,
    told: &mut Signature,
) -> u32
    ensures { ExportAt linked.now.contents number name.old name.new export.old export.new told.old told.new result }
{
    let contents = linked.valid().contents();
    let Some(found) = contents.exports.get(number as usize) else {
        return NONE;
    };
    let spelled = found.name.as_slice();
    copy_front(spelled, name);
    *export = Listed {
        length: spelled.len() as u64,
        kind: kind_number(found.kind),
        zero: 0,
    };
    tell_type(contents, found, told);
    OK
}

fn export_at(
    thing: &Thing,
    number: u64,
    name: &mut [u8],
    export: &mut Listed,
    told: &mut Signature,
) -> u32
    ensures { TellsExportAt thing.now number name.old name.new export.old export.new told.old told.new result }
{
    let Thing::Module(linked) = thing else {
        return KIND;
    };
    tell(linked, number, name, export, told)
}

/// The export of this number: its name, as far as there is room, its kind, and the type of a function. Exports are counted from 0.
#[unsafe(no_mangle)]
pub extern "C" fn wasmloop_rt_export_at(
    alloc: Global,
    module: &mut Handle,
    number: u64,
    name: &mut [u8],
    export: &mut Listed,
    told: &mut Signature,
) -> u32
    ensures { ReadsHandle module.old.raw.value module.new.raw.value result ((name.new ≡ name.old) × (export.new ≡ export.old) × (told.new ≡ told.old))
        (λ t. TellsExportAt t number name.old name.new export.old export.new told.old told.new result) }
{
    on!(module, alloc, held => export_at(&held, number, name, export, told))
}
