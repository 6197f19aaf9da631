// What a module has that a host looks for.

ghost use Rattle.std.specs.Prelude.{◌≡◌, is_some};
ghost use Rattle.imports.specs.Uv.{name_of_entry};
ghost use Rattle.instance.specs.Store.{page_limit};
ghost use Rattle.valid.specs.Segments.{minimum};
ghost use Rattle.wasmloop_c.specs.Calls.{ReadsHandle, ReadsModule, IsShapeOf, TellsEntry};

use crate::handle::{Handle, on};
use crate::status::{KIND, OK};
use crate::thing::Thing;
use imports::{EntryPoint, Linked};
use limits::MAX_PAGES;
use std::alloc::Global;
use syntax::types::Limits;

/// What a module has that a host looks for: 1 where it does.
#[repr(C)]
#[derive(Clone, Copy)]
pub struct Shape {
    /// It exports `uv_main`.
    pub main: u32,
    /// It exports `uv_work`.
    pub work: u32,
    /// It exports `uv_after_work`.
    pub after_work: u32,
    /// It has a table, from which callbacks are called.
    pub table: u32,
    /// How many pages its memory has initially; 0 where it has none.
    pub pages: u32,
    /// How many pages it may grow to, `MAX_PAGES` at most; a memory that begins with more is refused.
    pub most_pages: u32,
    /// How many functions it imports.
    pub imports: u64,
}

/// How large a memory or a table is initially.
pub fn first_size(limits: Option<Limits>) -> u32
    ensures { result ≡ minimum limits }
{
    match limits {
        Some(limits) => limits.min,
        None => 0,
    }
}

fn most_pages(memory: Option<Limits>) -> u32
    ensures { result ≡ page_limit memory }
{
    match memory {
        Some(limits) => MAX_PAGES.min(limits.max.unwrap_or(MAX_PAGES)),
        None => 0,
    }
}

fn has(linked: &Linked, entry: EntryPoint) -> u32
    ensures { TellsEntry linked.now.contents (name_of_entry entry) result }
{
    match linked.entry(entry) {
        Some(_) => 1,
        None => 0,
    }
}

fn shape_of(linked: &Linked) -> Shape
    ensures { IsShapeOf linked.now.contents result }
{
    let contents = linked.valid().contents();
    Shape {
        main: has(linked, EntryPoint::Main),
        work: has(linked, EntryPoint::Work),
        after_work: has(linked, EntryPoint::AfterWork),
        table: contents.table.is_some() as u32,
        pages: first_size(contents.memory),
        most_pages: most_pages(contents.memory),
        imports: contents.imports.len() as u64,
    }
}

fn tell_shape(thing: &Thing, shape: &mut Shape) -> u32
    ensures { ReadsModule thing.now result (shape.new ≡ shape.old) (λ m. IsShapeOf m.contents shape.new) }
{
    let Thing::Module(linked) = thing else {
        return KIND;
    };
    *shape = shape_of(linked);
    OK
}

/// What a module has that a host looks for.
#[unsafe(no_mangle)]
pub extern "C" fn wasmloop_rt_shape(alloc: Global, module: &mut Handle, told: &mut Shape) -> u32
    ensures { ReadsHandle module.old.raw.value module.new.raw.value result (told.new ≡ told.old) (λ t. ReadsModule t result (told.new ≡ told.old) (λ m. IsShapeOf m.contents told.new)) }
{
    on!(module, alloc, held => tell_shape(&held, told))
}
