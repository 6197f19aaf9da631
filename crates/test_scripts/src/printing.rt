// Lines of a log that no run of a script reaches, and the words in them.

use crate::telling::check_told;
use events::ended::{Ended, Ending};
use events::phase::EntryKind;
use events::trap::TrapCode;
use events::values::Values;
use script::print;
use std::alloc::{AllocError, Global};
use std::process::Abort;
use std::test::Fail;
use syntax::items::Items;
use world_log::{CollectOutcome, FinishOutcome, JobEnd, JobId, Log, LogEntry};

fn line_of(alloc: Global, entry: LogEntry) -> Result<String, AllocError> {
    let mut log = Log::new(alloc);
    log.push(entry)?;
    print(alloc, &log)
}

fn check_line(
    rt: &impl Abort,
    alloc: Global,
    entry: LogEntry,
    wanted: &str,
) -> Result<(), AllocError> {
    let line = line_of(alloc, entry)?;
    check_told(rt, line.as_str(), wanted);
    Ok(())
}

/// A callback of loop 3 under number 8, of the least and the greatest numbers.
fn ran(alloc: Global, kind: EntryKind, ending: Ending) -> Result<LogEntry, AllocError> {
    let emits = Vec::from_slice(alloc, &[1 << 63, (1 << 63) - 1])?;
    Ok(LogEntry::Ran {
        loop_no: 3,
        kind,
        number: 8,
        ended: Ended {
            ending,
            used: u64::MAX,
        },
        emits: Items::from_vec(emits),
    })
}

/// The line of such a callback, of which the words say its kind and how it ended.
fn line_with(alloc: Global, words: &str) -> Result<String, AllocError> {
    format!(in alloc;
        "loop 3 run {words} used 18446744073709551615 emit -9223372036854775808 9223372036854775807\n"
    )
}

fn check_ran(
    rt: &impl Abort,
    alloc: Global,
    kind: EntryKind,
    ending: Ending,
    words: &str,
) -> Result<(), AllocError> {
    let wanted = line_with(alloc, words)?;
    check_line(rt, alloc, ran(alloc, kind, ending)?, wanted.as_str())
}

/// Callbacks of each kind whose fuel was spent.
const KINDS: [(EntryKind, &str); 8] = [
    (EntryKind::Start, "start 8 spent"),
    (EntryKind::Main, "main 8 spent"),
    (EntryKind::Timer, "timer 8 spent"),
    (EntryKind::Idle, "idle 8 spent"),
    (EntryKind::After, "after 8 spent"),
    (EntryKind::Async, "async 8 spent"),
    (EntryKind::Check, "check 8 spent"),
    (EntryKind::Close, "close 8 spent"),
];

#[test]
fn prints_each_kind_of_callback(rt: HostRuntime) -> Result<(), AllocError> {
    for &(kind, words) in &KINDS {
        check_ran(&rt, rt.alloc(), kind, Ending::Spent, words)?;
    }
    Ok(())
}

fn check_end(
    rt: &impl Abort,
    alloc: Global,
    ending: Ending,
    words: &str,
) -> Result<(), AllocError> {
    check_ran(rt, alloc, EntryKind::Close, ending, words)
}

/// Callbacks that ended by each trap.
const TRAPS: [(TrapCode, &str); 7] = [
    (TrapCode::Unreachable, "close 8 trap 1"),
    (TrapCode::DivideByZero, "close 8 trap 2"),
    (TrapCode::Overflow, "close 8 trap 3"),
    (TrapCode::Memory, "close 8 trap 4"),
    (TrapCode::Table, "close 8 trap 5"),
    (TrapCode::EmptyElement, "close 8 trap 6"),
    (TrapCode::OtherType, "close 8 trap 7"),
];

#[test]
fn prints_each_trap_of_a_callback(rt: HostRuntime) -> Result<(), AllocError> {
    for &(code, words) in &TRAPS {
        check_end(&rt, rt.alloc(), Ending::Trap(code), words)?;
    }
    Ok(())
}

#[test]
fn prints_each_other_ending_of_a_callback(rt: HostRuntime) -> Result<(), AllocError> {
    let none = Values::from_slice(&[]);
    check_end(&rt, rt.alloc(), Ending::Return(none), "close 8 return")?;
    check_end(&rt, rt.alloc(), Ending::Depth, "close 8 depth")?;
    check_end(&rt, rt.alloc(), Ending::Spent, "close 8 spent")
}

const FINISH: LogEntry = LogEntry::Finish {
    worker: 15,
    outcome: FinishOutcome::Ended(
        JobId {
            loop_no: 1,
            request: 2_147_483_647,
        },
        JobEnd::NoMemory,
    ),
};

const COLLECT: LogEntry = LogEntry::Collect {
    loop_no: 2,
    outcome: CollectOutcome::Stranger,
};

const SEND: LogEntry = LogEntry::Send {
    loop_no: 0,
    async_no: 2,
    is_refused: true,
};

#[test]
fn prints_what_a_world_has_no_way_to(rt: HostRuntime) -> Result<(), AllocError> {
    let alloc = rt.alloc();
    let finished = "finish 15 loop 1 request 2147483647 nomemory\n";
    check_line(&rt, alloc, FINISH, finished)?;
    check_line(&rt, alloc, COLLECT, "collect 2 stranger\n")?;
    check_line(&rt, alloc, SEND, "send 0 2 refused\n")
}
