// Where and why a script is rejected.

use crate::flaw::Flaw;
use crate::nesting::deepest;
use crate::walk::Walk;
use json::{MAX_DEPTH, Reader, Scratch};
use script::ScriptFault;
use serde_json::Value;
use std::alloc::Global;

/// The line and the column of a byte, both counted from 1.
fn spot_of(text: &str, at: usize) -> (usize, usize) {
    let mut spot = (1usize, 1usize);
    for byte in text.as_bytes().iter().take(at) {
        spot = match *byte {
            b'\n' => (spot.0.saturating_add(1), 1),
            _ => (spot.0, spot.1.saturating_add(1)),
        };
    }
    spot
}

/// Whether a text may be a list of steps, by its first letter.
fn may_be_steps(text: &str) -> bool {
    matches!(
        text.trim_start().as_bytes().first(),
        Some(b'#' | b'a'..=b'z')
    )
}

/// Why a text is not JSON, if it is not nested too deeply, where it is known to be something else.
fn no_json_at(
    alloc: Global,
    error: &serde_json::Error,
    text: &str,
    other: Option<&str>,
) -> Option<String> {
    if text.trim_start().is_empty() {
        return String::from_str(alloc, "the file is empty: a script is a JSON object").ok();
    }
    let (line, column) = (error.line(), error.column());
    if error.is_eof() {
        return format!(in alloc; "line {line}, column {column}: unexpected end of JSON").ok();
    }
    match other {
        Some(other) => {
            format!(in alloc; "line {line}, column {column}: invalid JSON (this is {other})").ok()
        }
        None if may_be_steps(text) => format!(in alloc;
            "line {line}, column {column}: invalid JSON (a list of steps? convert it with examples/script.py)"
        ).ok(),
        None => format!(in alloc; "line {line}, column {column}: invalid JSON").ok(),
    }
}

/// Where a text nests deeper than is read, if it is JSON up to there.
fn too_deep(error: &serde_json::Error, text: &str) -> Option<(usize, usize)> {
    let spot = spot_of(text, deepest(text)?);
    if (error.line(), error.column().saturating_add(1)) < spot {
        return None;
    }
    Some(spot)
}

fn no_json(alloc: Global, text: &str, other: Option<&str>) -> Option<String> {
    let Err(error) = serde_json::from_str::<Value>(alloc, text) else {
        return None;
    };
    if error.is_memory() {
        return None;
    }
    match too_deep(&error, text) {
        Some((line, column)) => {
            format!(in alloc;
                "line {line}, column {column}: nested deeper than {MAX_DEPTH} levels"
            ).ok()
        }
        None => no_json_at(alloc, &error, text, other),
    }
}

fn told(alloc: Global, fault: ScriptFault, text: &str, flaw: Flaw<'_>) -> Option<String> {
    if fault != ScriptFault::Shape {
        return format!(in alloc; "{flaw}").ok();
    }
    let (line, column) = spot_of(text, flaw.at);
    format!(in alloc; "line {line}, column {column}: {flaw}").ok()
}

/// A number is known to be out of its range only once the modules are counted, so that a second walk may find what the first did not.
fn walked(alloc: Global, fault: ScriptFault, text: &str) -> Option<String> {
    let mut modules = None;
    for _ in 0..2 {
        let mut scratch = Scratch::new(alloc);
        let mut walk = Walk {
            alloc,
            reader: Reader::new(text, &mut scratch).ok()?,
            fault,
            modules,
            room: text.len(),
        };
        match walk.script() {
            Ok(()) => modules = walk.modules,
            Err(flaw) => return told(alloc, fault, text, flaw),
        }
    }
    None
}

/// A sentence that says where the text has this fault and what is found there; None if memory runs out. It reads the text again.
/// `other` is what the text is, if it is known to be no script.
pub fn script_fault(
    alloc: Global,
    fault: ScriptFault,
    text: &str,
    other: Option<&str>,
) -> Option<String> {
    match fault {
        ScriptFault::Json => no_json(alloc, text, other),
        ScriptFault::Shape | ScriptFault::Hex | ScriptFault::Range => walked(alloc, fault, text),
        ScriptFault::Memory => None,
    }
}
