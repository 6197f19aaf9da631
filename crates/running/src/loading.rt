// From a file to a module that the host can run.

ghost use Rattle.std.specs.Prelude.{◌≡◌, ◌≢◌, IfOk, IfErr};
ghost use Rattle.loader.specs.Loading.{IsAccepted};
ghost use Rattle.running.specs.Accepted.{AreRefused, HoldsNone, IsLoaded};
ghost use Rattle.running.specs.Statuses.{status_of_failure};
ghost use Rattle.running.specs.declared.status.ExitStatus.TheVariants as status;

use crate::failure::Failure;
use files::{IoFault, Reader};
use imports::Linked;
use limits::MAX_MODULE_BYTES;
use loader::Refusal;
use sentences::account_of;
use std::alloc::Global;

/// One byte more than a module may have: what comes after it changes no result.
const ENOUGH: usize = MAX_MODULE_BYTES + 1;

fn refused(alloc: Global, bytes: &[u8], refusal: Refusal) -> Failure<'static>
    ensures { status_of_failure result ≡ status.Refused → refusal ≢ Refusal.Memory }
{
    match refusal {
        Refusal::Memory => Failure::Io(IoFault::Memory),
        _ => Failure::Refused {
            module: None,
            refusal,
            account: account_of(refusal, alloc, bytes),
        },
    }
}

/// The module that the bytes spell, validated and linked.
fn accept(alloc: Global, bytes: &[u8]) -> Result<Linked, Failure<'static>>
    ensures same { IfOk result (λ linked. linked.bytes ≡ bytes.now) }
    ensures accepted { IfOk result (λ linked. IsAccepted linked.bytes linked.contents) }
    ensures refused { IfErr result (λ f. status_of_failure f ≡ status.Refused → AreRefused bytes.now) }
{
    match loader::load(alloc, bytes) {
        Ok(linked) => Ok(linked),
        Err(refusal) => Err(refused(alloc, bytes, refusal)),
    }
}

/// The module of the file, read, validated and linked.
pub fn load<'a, R: Reader>(alloc: Global, reader: &R, file: &'a str) -> Result<Linked, Failure<'a>>
    ensures loaded { IfOk result (λ linked. IsLoaded (R.gives reader.now) file.now linked) }
    ensures refused { IfErr result (λ f. status_of_failure f ≡ status.Refused → HoldsNone (R.gives reader.now) file.now) }
{
    let bytes = reader.read(alloc, file, ENOUGH)?;
    Ok(accept(alloc, bytes.as_slice())?)
}
