// What is reported of a rejection.

ghost use Rattle.std.specs.Prelude.{IfOk, IfSome};
ghost use Rattle.sentences.specs.RefusalPlaces.{IsToldOf, IsTrueOf};

use crate::defect::Defect;
use crate::help::LINKED;
use crate::invalid::invalid;
use crate::meanings::meaning;
use crate::memory::RefusedText;
use crate::reason::{Finding, Reason};
use crate::undecoded::undecoded;
use crate::unlinked::unlinked;
use limits::MAX_MODULE_BYTES;
use loader::Refusal;
use places::{Place, is_object};
use std::alloc::Global;
use std::fmt;

/// Where bytes are rejected, and what breaks a rule there, as far as that is known, and why. It prints as a sentence.
#[derive(Debug, Drop)]
pub struct RefusalAccount {
    pub place: Option<Place>,
    pub defect: Option<Defect>,
    reason: Reason,
}

impl fmt::Display for RefusalAccount {
    fn fmt<W: fmt::Write>(&self, f: &mut fmt::Formatter<W>) -> fmt::Result {
        if let Some(place) = &self.place {
            write!(f, "{place}: ")?;
        }
        match &self.defect {
            Some(defect) => write!(f, "{defect}"),
            None => write!(f, "{}", self.reason),
        }
    }
}

/// What is found at the place of the rejection. The bytes are read again.
fn found_at(refusal: Refusal, alloc: Global, bytes: &[u8]) -> Result<Option<Finding>, RefusedText>
    ensures { IfOk result (λ found. IfSome found (λ it. IsToldOf refusal bytes.now it.place it.defect)) }
{
    match refusal {
        Refusal::Memory => Ok(None),
        Refusal::Decode(fault) => undecoded(alloc, bytes, fault),
        Refusal::Validate(fault) => invalid(alloc, bytes, fault),
        Refusal::Link(fault) => unlinked(alloc, bytes, fault),
    }
}

/// Why the bytes are rejected, in words: for what is found, if that is known, else for what the fault means.
fn reason_of(refusal: Refusal, bytes: &[u8], found: Option<Reason>) -> Reason {
    if is_object(bytes) {
        return Reason::words("an object file: it has a \"linking\" section").with(LINKED);
    }
    found.unwrap_or(Reason::words(meaning(refusal)))
}

/// The account of a rejection, by what is found at its place.
fn account(refusal: Refusal, bytes: &[u8], finding: Option<Finding>) -> RefusalAccount
    requires { IfSome finding (λ it. IsToldOf refusal bytes.now it.place it.defect) }
    ensures { IsTrueOf refusal bytes.now result }
{
    match finding {
        Some(
            Finding {
                place,
                defect,
                reason,
            },
        ) => RefusalAccount {
            place: Some(place),
            defect,
            reason: reason_of(refusal, bytes, reason),
        },
        None => RefusalAccount {
            place: None,
            defect: None,
            reason: reason_of(refusal, bytes, None),
        },
    }
}

/// Where and why these bytes are rejected. It reads them again.
pub fn try_explain(
    refusal: Refusal,
    alloc: Global,
    bytes: &[u8],
) -> Result<RefusalAccount, RefusedText>
    ensures { IfOk result (IsTrueOf refusal bytes.now) }
{
    let finding = found_at(refusal, alloc, bytes)?;
    Ok(account(refusal, bytes, finding))
}

/// Where and why these bytes are rejected. It reads them again; if an allocation fails, the place is left out.
pub fn explain(refusal: Refusal, alloc: Global, bytes: &[u8]) -> RefusalAccount
    ensures { IsTrueOf refusal bytes.now result }
{
    match try_explain(refusal, alloc, bytes) {
        Ok(told) => told,
        Err(_) => account(refusal, bytes, None),
    }
}

/// Where and why these bytes are rejected; None if they are longer than a module may be.
pub fn account_of(refusal: Refusal, alloc: Global, bytes: &[u8]) -> Option<RefusalAccount>
    ensures { IfSome result (IsTrueOf refusal bytes.now) }
{
    if bytes.len() > MAX_MODULE_BYTES {
        return None;
    }
    Some(explain(refusal, alloc, bytes))
}
