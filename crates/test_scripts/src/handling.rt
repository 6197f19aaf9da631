// Tables of handles that take one turn after another.

ghost use Rattle.std.specs.Prelude.{IsTrue};
ghost use Rattle.handles.specs.Table.{IsOpen, IsTimer};

use crate::handling::Turn::{Again, Due, Idle, Init, Nearest, Start, Stop};
use crate::telling::check_told;
use handles::{Handles, Kind, List};
use std::alloc::{AllocError, Global};
use std::fmt::Debug;
use std::process::Abort;
use std::test::Fail;

/// What is done with a table.
#[derive(Clone, Copy)]
enum Turn {
    /// A handle is made.
    Init(Kind),
    /// A handle is started, with its due moment and its repeat.
    Start(u32, u64, u64),
    /// A timer is started again at this moment.
    Again(u32, u64),
    /// A handle is stopped.
    Stop(u32),
    /// The timers that are due by this moment are listed.
    Due(u64),
    /// The active idle handles are listed.
    Idle,
    /// The nearest due moment is printed.
    Nearest,
}

fn is_open(handles: &Handles, handle: u32) -> bool
    ensures { IsTrue result → IsOpen handles.now handle }
{
    handles.get(handle).is_some_and(|kept| !kept.closing)
}

fn is_timer(handles: &Handles, handle: u32) -> bool
    ensures { IsTrue result → IsTimer handles.now handle }
{
    handles
        .get(handle)
        .is_some_and(|kept| kept.kind == Kind::Timer)
}

/// Whether the handle is there, which is started then.
fn start(handles: &mut Handles, handle: u32, due: u64, repeat: u64) -> bool {
    let is_there = is_open(handles, handle);
    if is_there {
        handles.start(handle, 7, due, repeat);
    }
    is_there
}

fn stop(handles: &mut Handles, handle: u32) -> bool {
    let is_there = is_open(handles, handle);
    if is_there {
        handles.stop(handle);
    }
    is_there
}

fn again(handles: &mut Handles, handle: u32, now: u64) -> bool {
    is_open(handles, handle) && is_timer(handles, handle) && handles.again(handle, now)
}

/// Each handle with its start number.
fn tell_list(text: &mut String, list: &List) -> Result<(), AllocError> {
    text.push_str("listed")?;
    for index in 0..list.len() {
        if let Some((handle, start)) = list.get(index) {
            write!(text, " {handle}.{start}")?;
        }
    }
    text.push_str("; ")
}

/// Appends an answer.
fn tell<T: Copy + Debug>(text: &mut String, answer: T) -> Result<(), AllocError> {
    write!(text, "{answer:?}; ")
}

fn take(text: &mut String, handles: &mut Handles, turn: Turn) -> Result<(), AllocError> {
    match turn {
        Init(kind) => tell(text, handles.init(kind)),
        Start(handle, due, repeat) => tell(text, start(handles, handle, due, repeat)),
        Again(handle, now) => tell(text, again(handles, handle, now)),
        Stop(handle) => tell(text, stop(handles, handle)),
        Due(now) => tell_list(text, &handles.due(now)),
        Idle => tell_list(text, &handles.of_kind(Kind::Idle)),
        Nearest => tell(text, handles.nearest()),
    }
}

fn take_all(text: &mut String, handles: &mut Handles, turns: &[Turn]) -> Result<(), AllocError> {
    for turn in turns {
        take(text, handles, *turn)?;
    }
    Ok(())
}

fn told_by(alloc: Global, handles: &mut Handles, turns: &[Turn]) -> Result<String, AllocError> {
    let mut text = String::new(alloc);
    take_all(&mut text, handles, turns)?;
    Ok(text)
}

/// What a new table answers in these turns.
fn told(alloc: Global, turns: &[Turn]) -> Result<String, AllocError> {
    let mut handles = Handles::new(alloc)?;
    told_by(alloc, &mut handles, turns)
}

fn check(rt: &impl Abort, alloc: Global, turns: &[Turn], wanted: &str) -> Result<(), Fail> {
    let told = told(alloc, turns)?;
    check_told(rt, told.as_str(), wanted);
    Ok(())
}

const SAME_MOMENT: [Turn; 10] = [
    Init(Kind::Timer),
    Init(Kind::Timer),
    Nearest,
    Start(1, 50, 0),
    Start(0, 50, 0),
    Due(49),
    Due(50),
    Nearest,
    Again(1, 50),
    Due(50),
];

#[test]
fn timers_of_one_moment_are_due_in_the_order_of_their_starts(rt: HostRuntime) -> Result<(), Fail> {
    let wanted =
        "Some(0); Some(1); None; true; true; listed; listed 1.1 0.2; Some(50); true; listed 0.2; ";
    check(&rt, rt.alloc(), &SAME_MOMENT, wanted)
}

const LATE: [Turn; 12] = [
    Init(Kind::Timer),
    Again(0, 5),
    Start(0, 50, 20),
    Due(55),
    Again(0, 55),
    Due(74),
    Due(75),
    Stop(0),
    Nearest,
    Again(0, 100),
    Due(119),
    Due(120),
];

#[test]
fn a_timer_that_runs_late_is_due_an_interval_after_it_ran(rt: HostRuntime) -> Result<(), Fail> {
    let wanted =
        "Some(0); false; true; listed 0.1; true; listed; listed 0.2; true; None; true; listed; listed 0.3; ";
    check(&rt, rt.alloc(), &LATE, wanted)
}

const GREATEST: [Turn; 4] = [
    Init(Kind::Timer),
    Start(0, 10, u64::MAX),
    Again(0, 10),
    Nearest,
];

#[test]
fn a_due_moment_stays_at_the_greatest_number(rt: HostRuntime) -> Result<(), Fail> {
    let wanted = "Some(0); true; true; Some(18446744073709551615); ";
    check(&rt, rt.alloc(), &GREATEST, wanted)
}

const IDLE: [Turn; 9] = [
    Init(Kind::Idle),
    Init(Kind::Idle),
    Start(1, 0, 0),
    Start(0, 0, 0),
    Start(1, 0, 0),
    Idle,
    Stop(1),
    Start(1, 0, 0),
    Idle,
];

#[test]
fn idle_handles_are_listed_in_the_order_of_their_starts(rt: HostRuntime) -> Result<(), Fail> {
    let wanted = "Some(0); Some(1); true; true; true; listed 1.1 0.2; true; true; listed 0.2 1.3; ";
    check(&rt, rt.alloc(), &IDLE, wanted)
}
