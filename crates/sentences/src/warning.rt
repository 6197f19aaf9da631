// What an accepted module lacks to run on a loop.

use imports::{Call, EntryPoint, Linked};
use limits::MAX_EMITS;
use std::fmt;
use std::io::{self, Write};
use syntax::contents::ExternKind;

/// What an accepted module lacks to run on a loop. It prints as a sentence.
#[derive(Clone, Copy, Debug)]
pub enum Warning {
    /// It imports this call, which takes a callback, and has no table.
    Table(Call),
    /// It exports none of the functions that a loop or a job calls.
    Exports,
    /// It has no function that a loop begins with.
    Main,
    /// It queues work, and lacks these exports.
    Work(&'static str),
}

/// The greatest number of warnings of a module.
const KINDS: usize = 3;

/// Whether the guest gives a callback with this call, as an index of its table.
fn takes_callback(call: Call) -> bool {
    matches!(
        call,
        Call::TimerStart | Call::IdleStart | Call::CheckStart | Call::AsyncInit | Call::Close
    )
}

/// The first import that takes a callback, where there is one.
fn callback_import(linked: &Linked) -> Option<Call> {
    for import in linked.valid().contents().imports.as_slice() {
        match Call::from_name(import.name.as_slice()) {
            Some(call) if takes_callback(call) => return Some(call),
            _ => {}
        }
    }
    None
}

/// Whether a loop has nothing to begin with.
fn is_without_main(linked: &Linked) -> bool {
    linked.valid().contents().start.is_none() && linked.entry(EntryPoint::Main).is_none()
}

/// Whether loops and jobs call nothing of the module.
fn is_idle(linked: &Linked) -> bool {
    is_without_main(linked)
        && linked.entry(EntryPoint::Work).is_none()
        && linked.entry(EntryPoint::AfterWork).is_none()
}

/// Whether the host of a plug-in calls a function by this name: the toolchain's names begin with `_`, a loop's with `uv_`.
fn is_plugin_name(name: &[u8]) -> bool {
    !name.starts_with(b"_") && !name.starts_with(b"uv_") && name != b"main".as_slice()
}

/// Whether the module is a plug-in: it exports a function that an instance can call.
fn is_plugin(linked: &Linked) -> bool {
    let exports = linked.valid().contents().exports.as_slice();
    exports.iter().any(|export| export.kind == ExternKind::Func
        && is_plugin_name(export.name.as_slice()))
}

fn of_table(linked: &Linked) -> Option<Warning> {
    if linked.valid().contents().table.is_some() {
        return None;
    }
    Some(Warning::Table(callback_import(linked)?))
}

fn of_exports(linked: &Linked) -> Option<Warning> {
    if is_idle(linked) {
        Some(Warning::Exports)
    } else {
        None
    }
}

/// Whether the module imports this call.
fn imports(linked: &Linked, wanted: Call) -> bool {
    let imports = linked.valid().contents().imports.as_slice();
    imports.iter().any(|import| Call::from_name(import.name.as_slice()) == Some(wanted))
}

fn of_work(linked: &Linked) -> Option<Warning> {
    let lacks = match (
        linked.entry(EntryPoint::Work),
        linked.entry(EntryPoint::AfterWork),
    ) {
        (Some(_), Some(_)) => return None,
        (None, Some(_)) => "no uv_work",
        (Some(_), None) => "no uv_after_work",
        (None, None) => "neither uv_work nor uv_after_work",
    };
    if imports(linked, Call::QueueWork) {
        Some(Warning::Work(lacks))
    } else {
        None
    }
}

fn of_main(linked: &Linked) -> Option<Warning> {
    if is_without_main(linked) {
        Some(Warning::Main)
    } else {
        None
    }
}

/// What a module lacks that is to run on a loop.
fn loop_warnings(linked: &Linked) -> [Option<Warning>; KINDS] {
    let begins = of_exports(linked).or(of_main(linked));
    [of_table(linked), begins, of_work(linked)]
}

/// What an accepted module lacks to run on a loop. A plug-in need not run on one.
pub fn warnings(linked: &Linked) -> [Option<Warning>; KINDS] {
    let exports = if is_plugin(linked) {
        None
    } else {
        of_exports(linked)
    };
    [of_table(linked), exports, of_work(linked)]
}

impl fmt::Display for Warning {
    fn fmt<W: fmt::Write>(&self, f: &mut fmt::Formatter<W>) -> fmt::Result {
        match self {
            Warning::Table(call) => {
                let name = call.name();
                write!(
                    f,
                    "the module imports {name} but has no table, so no callback can be called; link with --export-table"
                )
            }
            Warning::Exports => f.write_str(
                "the module exports none of uv_main, uv_work and uv_after_work, so loops and jobs have nothing to run; export one as examples/uv.h does, or call other exports with `wasmloop invoke`",
            ),
            Warning::Main => f.write_str(
                "the module has no start function and exports no uv_main, so its loops run nothing; export uv_main, or run its uv_work with `wasmloop work`",
            ),
            Warning::Work(lacks) => write!(
                f,
                "the module imports queue_work but exports {lacks}, so every request fails with -38"
            ),
        }
    }
}

/// Writes each warning in a line. If a sentence cannot be written, nothing changes.
fn write_all<E: Write>(found: &[Option<Warning>], err: &mut E) {
    for warning in found.iter().flatten() {
        let _ = writeln!(err, "warning: {warning}");
    }
}

/// Warns of what an accepted module lacks to run on a loop. A plug-in need not run on one.
pub fn warn<E: Write>(linked: &Linked, err: &mut E) {
    write_all(&warnings(linked), err)
}

/// Warns of what a module lacks that is to run on a loop.
pub fn warn_loop<E: Write>(linked: &Linked, err: &mut E) {
    write_all(&loop_warnings(linked), err)
}

/// Warns of emitted values that were dropped, if there are any.
pub fn warn_refused<E: Write>(loop_no: u32, refused: u64, err: &mut E) -> io::Result<()> {
    let values = match refused {
        0 => return Ok(()),
        1 => "value was",
        _ => "values were",
    };
    writeln!(
        err,
        "warning: loop {loop_no}: {refused} {values} dropped: a callback may emit {MAX_EMITS}, and emit returns -28 for each further one"
    )
}

/// The least time that is negative as a number with a sign.
const NEGATIVE: u64 = 1 << 63;

/// Warns of a time that only a timer with a negative timeout or repeat can have led to.
pub fn warn_clock<E: Write>(loop_no: u32, now: u64, err: &mut E) -> io::Result<()> {
    if now < NEGATIVE {
        return Ok(());
    }
    writeln!(
        err,
        "warning: loop {loop_no}: its time is {now} ms: a timer's timeout and repeat are unsigned, so that -1 is 2^64 - 1 ms"
    )
}
