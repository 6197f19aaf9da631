// At which byte a module is refused by its form, and for what.

ghost use Rattle.std.specs.Prelude.{◌≡◌, IfOk, IfSome};
ghost use Rattle.loader.specs.declared.refusal.Refusal.TheVariants.{Decode};
ghost use Rattle.sentences.specs.RefusalPlaces.{byte_of_fault, IsToldOf};

use crate::found;
use crate::memory::{RefusedText, malformed_at};
use crate::reason::{Finding, Reason};
use decode::{DecodeFault, MalformedAt};
use places::{Part, Place, part_with};
use std::alloc::Global;

/// Which segment is to blame, where the fault is in one.
fn of_segment(bytes: &[u8], part: Option<Part>) -> Option<Reason> {
    match part {
        Some(Part::Section(section)) => found::segment(bytes, section),
        _ => None,
    }
}

/// What is known of the fault beyond its meaning.
fn reason_of(bytes: &[u8], refused: MalformedAt, part: Option<Part>) -> Option<Reason> {
    let MalformedAt { fault, at } = refused;
    if let Some(reason) = of_segment(bytes, part) {
        return Some(reason);
    }
    match fault {
        DecodeFault::Magic => found::format(bytes),
        DecodeFault::Version => found::version(bytes),
        DecodeFault::End => found::end(bytes, at, part),
        DecodeFault::Counts => Some(found::counts(bytes)),
        DecodeFault::Opcode => found::opcode(bytes, at),
        DecodeFault::Profile => found::profile(*bytes.get(at)?),
        DecodeFault::Limit => found::limit(bytes, at, part),
        DecodeFault::Kind => Some(found::kind(*bytes.get(at)?, part)),
        _ => None,
    }
}

/// The byte whose part is told: that of the fault; where a part ends too soon, the last one before it.
fn byte_in_part(refused: MalformedAt) -> usize
    ensures { result ≡ byte_of_fault refused.fault refused.at }
{
    let MalformedAt { fault, at } = refused;
    match fault {
        DecodeFault::End => at.saturating_sub(1),
        _ => at,
    }
}

/// The byte at which the bytes are refused for this fault, the part in which it or what is missing there lies, and what is found.
pub fn undecoded(
    alloc: Global,
    bytes: &[u8],
    fault: DecodeFault,
) -> Result<Option<Finding>, RefusedText>
    ensures { IfOk result (λ found. IfSome found (λ it. IsToldOf (Decode fault) bytes.now it.place it.defect)) }
{
    let Some(refused) = malformed_at(alloc, bytes)? else {
        return Ok(None);
    };
    if refused.fault != fault {
        return Ok(None);
    }
    let part = part_with(bytes, byte_in_part(refused));
    Ok(Some(Finding {
        place: Place::Byte {
            at: refused.at,
            part,
        },
        defect: None,
        reason: reason_of(bytes, refused, part),
    }))
}
