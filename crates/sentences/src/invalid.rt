// In which section, function and operation a module is not valid, and for what.

ghost use Rattle.std.specs.Prelude.{IfOk, IfSome};
ghost use Rattle.loader.specs.declared.refusal.Refusal.TheVariants.{Validate};
ghost use Rattle.sentences.specs.Defects.{IsDefectOf};
ghost use Rattle.sentences.specs.RefusalPlaces.{IsPlaceOfSite, IsToldOf};

use crate::defect::Defect;
use crate::entries::section_defect;
use crate::found;
use crate::help::{NO_TABLES, OPTIMIZED};
use crate::memory::{RefusedText, decoded, invalid_at};
use crate::operations::operation_defect;
use crate::reason::{Finding, Reason};
use crate::types::name_of_type;
use limits::{MAX_HEIGHT, MAX_LOCALS, MAX_NESTING};
use places::{Place, is_object, place_of_function, place_of_operation, place_of_section};
use std::alloc::Global;
use syntax::module::Module;
use validate::{InvalidPart, Unfit, ValidFault};

fn place_of(bytes: &[u8], site: InvalidPart) -> Option<Place>
    ensures { IfSome result (IsPlaceOfSite bytes.now site) }
{
    match site {
        InvalidPart::Section(id) => place_of_section(bytes, id),
        InvalidPart::Function(function) => place_of_function(bytes, function),
        InvalidPart::Operation {
            function,
            number,
            ..
        } => place_of_operation(bytes, function, number),
    }
}

/// Why the operands of an operation don't fit it.
fn of_type(name: &str, unfit: Option<Unfit>) -> Option<Reason> {
    match unfit {
        Some(Unfit::Wanted { wanted, found }) => {
            return Some(Reason::operand(name_of_type(wanted), found.map(name_of_type)));
        }
        Some(Unfit::Left { count, last }) => {
            return Some(Reason::left_over(count, last.map(name_of_type)));
        }
        None => {}
    }
    let words = match name {
        "br_table" => "the branch targets have different types",
        "drop" | "select" => "expected an operand, found none",
        _ => return None,
    };
    Some(Reason::words(words))
}

/// What is known of the fault beyond its meaning.
fn reason_of(bytes: &[u8], fault: ValidFault, site: InvalidPart, place: &Place) -> Option<Reason> {
    let (most, things, help) = match (fault, site, place) {
        (ValidFault::Index, InvalidPart::Section(section), _) => return found::segment(
            bytes, section,
        ),
        (
            ValidFault::BadType,
            InvalidPart::Operation { unfit, .. },
            Place::Operation { name, .. },
        ) => {
            return of_type(*name, unfit);
        }
        (ValidFault::Height, InvalidPart::Function(_), _) => {
            (MAX_LOCALS, "parameters and locals", OPTIMIZED)
        }
        (ValidFault::Height, InvalidPart::Operation { .. }, _) => {
            (MAX_HEIGHT, "operands on the stack", "split the expression")
        }
        (ValidFault::Nesting, _, _) => (MAX_NESTING, "nested blocks", NO_TABLES),
        _ => return None,
    };
    Some(Reason::more_than(most as u64, things).with(help))
}

/// What breaks the rule of the fault, by numbers, unless more is known. Of an object file it is not told: it is not linked yet.
fn defect_of(
    alloc: Global,
    module: &Module,
    fault: ValidFault,
    site: InvalidPart,
    is_known: bool,
) -> Result<Option<Defect>, RefusedText>
    ensures { IfOk result (λ found. IfSome found (IsDefectOf «module».now.contents site)) }
{
    if is_known || is_object(module.bytes()) {
        return Ok(None);
    }
    match site {
        InvalidPart::Section(section) => section_defect(alloc, module, section),
        InvalidPart::Function(_) => Ok(None),
        InvalidPart::Operation {
            function,
            number,
            ..
        } => Ok(operation_defect(module.contents(), fault, function, number)),
    }
}

/// The part of the module that is not valid for this fault, and what is found there.
pub fn invalid(
    alloc: Global,
    bytes: &[u8],
    fault: ValidFault,
) -> Result<Option<Finding>, RefusedText>
    ensures { IfOk result (λ found. IfSome found (λ it. IsToldOf (Validate fault) bytes.now it.place it.defect)) }
{
    let Some(module) = decoded(alloc, bytes)? else {
        return Ok(None);
    };
    let Some(refused) = invalid_at(alloc, &module)? else {
        return Ok(None);
    };
    if refused.fault != fault {
        return Ok(None);
    }
    let Some(place) = place_of(bytes, refused.site) else {
        return Ok(None);
    };
    let reason = reason_of(bytes, refused.fault, refused.site, &place);
    let defect = defect_of(alloc, &module, fault, refused.site, reason.is_some())?;
    Ok(Some(Finding {
        place,
        defect,
        reason,
    }))
}
