// From a text to its plan.

ghost use Rattle.std.specs.Prelude.{◌≤◌, IfOk, OnOk, length};
ghost use Rattle.limits.specs.declared.TheConstants.{MAX_SCRIPT_BYTES};
ghost use Rattle.script.specs.Fault.{IsJson};
ghost use Rattle.script.specs.Limits.{IsWithinLimits};

use crate::failure::ScriptFailure;
use flaws::script_fault;
use limits::MAX_SCRIPT_BYTES;
use script::{Plan, ScriptFault, read};
use sentences::{Grouped, kind_of_file};
use std::alloc::Global;
use std::str;

/// What a file is that is no script, if that is known.
fn other_file(bytes: &[u8]) -> Option<&'static str> {
    if bytes.starts_with(b"\0asm") {
        return Some("a module: run it with 'wasmloop serve FILE --loops 1 --workers 1'");
    }
    match kind_of_file(bytes)?.name {
        "JSON" | "a text file" => None,
        name => Some(name),
    }
}

/// Why bytes are no text, up to this one.
fn no_text(alloc: Global, bytes: &[u8], valid: usize) -> Option<String> {
    match other_file(bytes) {
        Some(other) => format!(in alloc; "byte {valid}: invalid UTF-8 (this is {other})").ok(),
        None => format!(in alloc; "byte {valid}: invalid UTF-8").ok(),
    }
}

/// The plan of these bytes.
fn plan_in(alloc: Global, bytes: &[u8]) -> Result<Plan, ScriptFailure>
    ensures limits { IfOk result IsWithinLimits }
    ensures few { OnOk result (length bytes.now ≤ MAX_SCRIPT_BYTES) }
    ensures json { OnOk result (IsJson bytes.now) }
{
    if bytes.len() > MAX_SCRIPT_BYTES {
        let most = Grouped(MAX_SCRIPT_BYTES as u64);
        let told = format!(in alloc; "the file has more than {most} bytes");
        return Err(ScriptFailure::no_script(ScriptFault::Range, told.ok()));
    }
    let text = match str::from_utf8(bytes) {
        Ok(text) => text,
        Err(error) => {
            let told = no_text(alloc, bytes, error.valid_up_to());
            return Err(ScriptFailure::no_script(ScriptFault::Json, told));
        }
    };
    match read(alloc, text) {
        Ok(plan) => Ok(plan),
        Err(fault) => {
            let told = script_fault(alloc, fault, text, other_file(bytes));
            Err(ScriptFailure::no_script(fault, told))
        }
    }
}

/// The plan of the text. The text is dropped.
pub fn plan_of(alloc: Global, text: Vec<u8>) -> Result<Plan, ScriptFailure>
    ensures limits { IfOk result IsWithinLimits }
    ensures few { OnOk result (length text.items ≤ MAX_SCRIPT_BYTES) }
    ensures json { OnOk result (IsJson text.items) }
{
    plan_in(alloc, text.as_slice())
}
