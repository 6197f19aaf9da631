// Which import, export or segment does not fit the host, and what would.

ghost use Rattle.std.specs.Prelude.{IfOk, IfSome};
ghost use Rattle.loader.specs.declared.refusal.Refusal.TheVariants.{Link};
ghost use Rattle.sentences.specs.RefusalPlaces.{IsPlaceOfMisfit, IsToldOf};

use crate::help::DEFINED;
use crate::meanings::of_link;
use crate::memory::{Page, RefusedText, export_name, import_place, text, validated};
use crate::reason::{Finding, Reason};
use crate::types::SpelledType;
use imports::{Call, CallType, EntryPoint, LinkFault, UnlinkedPart, refused_at};
use limits::PAGE_SIZE;
use places::{DATA, ELEMENTS, Place, place_of_section};
use std::alloc::Global;
use syntax::contents::{Contents, ExternKind, FuncType, Import, ModuleExport};
use syntax::initializer::Initializer;
use syntax::types::Value;
use valid::{type_at, type_of_function};

/// The functions that can be imported.
fn offered(alloc: Global) -> Result<String, RefusedText> {
    let mut page = Page::new(alloc);
    page.add("it has");
    let mut between = " ";
    for call in Call::ALL {
        page.add(between);
        page.add(call.name());
        between = ", ";
    }
    page.finish()
}

/// The expected type, and the one found.
fn compared(
    alloc: Global,
    wanted: CallType,
    found: Option<&FuncType>,
) -> Result<Option<String>, RefusedText> {
    let Some(found) = found else {
        return Ok(None);
    };
    let wanted = SpelledType::new(wanted.params, wanted.results);
    let found = SpelledType::new(found.params.as_slice(), found.results.as_slice());
    Ok(Some(text(alloc, format_args!("expected {wanted}, found {found}"))?))
}

/// What is known of a rejected import.
fn of_import(
    alloc: Global,
    contents: &Contents,
    import: &Import,
    fault: LinkFault,
) -> Result<Option<String>, RefusedText> {
    match fault {
        LinkFault::Name => Ok(Some(offered(alloc)?)),
        LinkFault::BadType => match Call::from_name(import.name.as_slice()) {
            Some(call) => compared(
                alloc,
                call.signature(),
                type_at(contents, import.type_index),
            ),
            None => Ok(None),
        },
        _ => Ok(Some(text(alloc, DEFINED)?)),
    }
}

/// What is known of an export that the host cannot call.
fn of_export(
    alloc: Global,
    contents: &Contents,
    export: &ModuleExport,
) -> Result<Option<String>, RefusedText> {
    let Some(entry) = EntryPoint::from_name(export.name.as_slice()) else {
        return Ok(None);
    };
    let wanted = entry.signature();
    if export.kind == ExternKind::Func {
        return compared(alloc, wanted, type_of_function(contents, export.index));
    }
    let wanted = SpelledType::new(wanted.params, wanted.results);
    Ok(Some(text(alloc, format_args!("expected a function of type {wanted}"))?))
}

/// Whether so many elements or bytes from this offset on end beyond the room, and where.
fn end_behind(room: u64, offset: &Initializer, count: usize) -> Option<u64> {
    let Some(Value::I32(start)) = offset.constant() else {
        return None;
    };
    let end = u64::from(start).saturating_add(count as u64);
    if end > room { Some(end) } else { None }
}

/// The first element segment that ends beyond the table.
fn of_elements(alloc: Global, contents: &Contents) -> Result<Option<String>, RefusedText> {
    let room = contents.table.map_or(0, |limits| u64::from(limits.min));
    for (number, element) in contents.elements.as_slice().iter().enumerate() {
        if let Some(end) = end_behind(room, &element.offset, element.functions.len()) {
            return Ok(Some(text(
                alloc,
                format_args!("segment {number} ends at {end}; initial table elements: {room}"),
            )?));
        }
    }
    Ok(None)
}

/// The first data segment that ends beyond the memory.
fn of_data(alloc: Global, contents: &Contents) -> Result<Option<String>, RefusedText> {
    let pages = contents.memory.map_or(0, |limits| u64::from(limits.min));
    let room = pages.saturating_mul(PAGE_SIZE as u64);
    for (number, segment) in contents.data.as_slice().iter().enumerate() {
        if let Some(end) = end_behind(room, &segment.offset, segment.bytes.len()) {
            return Ok(Some(text(
                alloc,
                format_args!("segment {number} ends at {end}; initial memory bytes: {room}"),
            )?));
        }
    }
    Ok(None)
}

/// The rejected part of the module, and what is known of it.
fn part_of(
    alloc: Global,
    bytes: &[u8],
    contents: &Contents,
    site: UnlinkedPart,
    fault: LinkFault,
) -> Result<(Option<Place>, Option<String>), RefusedText>
    ensures { IfOk result (λ found. IfSome found.0 (IsPlaceOfMisfit bytes.now contents.now site)) }
{
    match site {
        UnlinkedPart::Import(number) => {
            let Some(import) = contents.imports.get(number) else {
                return Ok((None, None));
            };
            let (module, name) = (import.module.as_slice(), import.name.as_slice());
            let place = import_place(alloc, number, module, name)?;
            Ok((Some(place), of_import(alloc, contents, import, fault)?))
        }
        UnlinkedPart::Export(number) => {
            let Some(export) = contents.exports.get(number) else {
                return Ok((None, None));
            };
            let place = Place::Export {
                name: export_name(alloc, export.name.as_slice())?,
            };
            Ok((Some(place), of_export(alloc, contents, export)?))
        }
        UnlinkedPart::Elements => {
            Ok((
                place_of_section(bytes, ELEMENTS),
                of_elements(alloc, contents)?,
            ))
        }
        UnlinkedPart::Data => Ok((place_of_section(bytes, DATA), of_data(alloc, contents)?)),
    }
}

/// What part of the module does not fit the host, and what else is known.
pub fn unlinked(
    alloc: Global,
    bytes: &[u8],
    fault: LinkFault,
) -> Result<Option<Finding>, RefusedText>
    ensures { IfOk result (λ found. IfSome found (λ it. IsToldOf (Link fault) bytes.now it.place it.defect)) }
{
    let Some(valid) = validated(alloc, bytes)? else {
        return Ok(None);
    };
    let Some(site) = refused_at(&valid) else {
        return Ok(None);
    };
    let (place, told) = part_of(alloc, bytes, valid.contents(), site, fault)?;
    let Some(place) = place else {
        return Ok(None);
    };
    let reason = told.map(|told| Reason::words(of_link(fault)).with_told(told));
    Ok(Some(Finding {
        place,
        defect: None,
        reason,
    }))
}
