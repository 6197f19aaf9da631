// The sentence that says where a run stopped.

use events::ended::{Ended, Ending};
use events::trap::TrapCode;
use instance::stack::Site;
use limits::MAX_DEPTH;
use order::{MAX_TRAIL, Outcome, Told, Trail};
use places::{Place, Shown, function_name, place_of_operation};
use std::fmt;
use std::io::{self, Write};
use world_log::JobEnd;

/// Why a run did not return.
#[derive(Clone, Copy, Debug)]
pub enum Reason {
    /// It trapped.
    Trap(TrapCode),
    /// It exceeded the call-depth limit.
    Depth,
    /// It ran out of fuel.
    Spent,
}

/// The call-depth limit of a run, and the options or keys that raise its limits.
#[derive(Clone, Copy, Debug)]
pub struct Allowed {
    pub depth: u32,
    pub depth_by: &'static str,
    pub fuel_by: &'static str,
}

impl Allowed {
    /// Raised by options of the command line.
    pub fn by_options(depth: u32) -> Allowed {
        Allowed {
            depth,
            depth_by: "--depth",
            fuel_by: "--fuel",
        }
    }

    /// Raised by options of the command line, for a work function beside loops.
    pub fn of_work_by_options(depth: u32) -> Allowed {
        Allowed {
            fuel_by: "--work-fuel",
            ..Allowed::by_options(depth)
        }
    }

    /// Raised by keys of a loop in a script.
    pub fn by_keys(depth: u32) -> Allowed {
        Allowed {
            depth,
            depth_by: "the loop's \"depth\"",
            fuel_by: "the loop's \"fuel\"",
        }
    }

    /// Raised by keys of a loop in a script, for a work function.
    pub fn of_work_by_keys(depth: u32) -> Allowed {
        Allowed {
            fuel_by: "the loop's \"work_fuel\"",
            ..Allowed::by_keys(depth)
        }
    }
}

/// How a run ended, if it did not return.
#[derive(Clone, Copy, Debug)]
pub struct Unfinished<'a> {
    pub reason: Reason,
    /// The units of fuel that it used.
    pub used: u64,
    pub trail: &'a Trail,
    pub allowed: Allowed,
}

/// How a work function ended, as in a log.
pub fn ending_of(outcome: &Outcome) -> JobEnd {
    match outcome {
        Outcome::Done(value, _) => JobEnd::Done(*value),
        Outcome::Trap(trap) => JobEnd::Trap(*trap),
        Outcome::Depth => JobEnd::Depth,
        Outcome::Spent => JobEnd::Spent,
        Outcome::NoMemory(_) => JobEnd::NoMemory,
    }
}

impl Reason {
    /// Why a call did not return, if it didn't.
    pub fn of_ending(ending: &Ending) -> Option<Reason> {
        match ending {
            Ending::Return(_) => None,
            Ending::Trap(trap) => Some(Reason::Trap(*trap)),
            Ending::Depth => Some(Reason::Depth),
            Ending::Spent => Some(Reason::Spent),
        }
    }

    /// Why a work function did not return, if it didn't.
    pub fn of_work(ending: JobEnd) -> Option<Reason> {
        match ending {
            JobEnd::Done(_) | JobEnd::NoMemory => None,
            JobEnd::Trap(trap) => Some(Reason::Trap(trap)),
            JobEnd::Depth => Some(Reason::Depth),
            JobEnd::Spent => Some(Reason::Spent),
        }
    }
}

impl<'a> Unfinished<'a> {
    /// How a call ended that stopped there, if it did not return.
    pub fn of_call(ended: &Ended, trail: &'a Trail, allowed: Allowed) -> Option<Unfinished<'a>> {
        Some(Unfinished {
            reason: Reason::of_ending(&ended.ending)?,
            used: ended.used,
            trail,
            allowed,
        })
    }

    /// How the run of a job ended, if it did not return.
    pub fn of_told(told: &'a Told, allowed: Allowed) -> Option<Unfinished<'a>> {
        Some(Unfinished {
            reason: Reason::of_work(ending_of(&told.reply.outcome))?,
            used: told.used,
            trail: told.trail.as_ref()?,
            allowed,
        })
    }
}

/// The unit in which fuel is printed.
pub fn unit_of(fuel: u64) -> &'static str {
    if fuel == 1 { "unit" } else { "units" }
}

/// What a trap means.
fn meaning(trap: TrapCode) -> &'static str {
    match trap {
        TrapCode::Unreachable => "unreachable",
        TrapCode::DivideByZero => "division by zero",
        TrapCode::Overflow => "a quotient out of range",
        TrapCode::Memory => "an access outside the memory",
        TrapCode::Table => "an index past the table",
        TrapCode::EmptyElement => "an empty element",
        TrapCode::OtherType => "a function of another type",
    }
}

/// Writes that a run exceeded the call-depth limit, and what raises it.
fn write_depth<E: Write>(allowed: Allowed, err: &mut E) -> io::Result<()> {
    let Allowed {
        depth,
        depth_by,
        ..
    } = allowed;
    if depth >= MAX_DEPTH {
        return write!(
            err,
            "exceeded the call-depth limit of {depth} (the maximum)"
        );
    }
    write!(
        err,
        "exceeded the call-depth limit of {depth} ({depth_by} raises it, up to {MAX_DEPTH})"
    )
}

/// Writes the address of an access outside the memory.
fn write_address<E: Write>(trail: &Trail, err: &mut E) -> io::Result<()> {
    match trail.address() {
        Some(address) => write!(err, " at address {address}"),
        None => Ok(()),
    }
}

/// Writes why a run did not return.
fn write_reason<E: Write>(stopped: &Unfinished<'_>, err: &mut E) -> io::Result<()> {
    match stopped.reason {
        Reason::Trap(trap) => {
            let (meaning, code) = (meaning(trap), trap.code());
            write!(err, "trapped: {meaning} ({code})")?;
            write_address(stopped.trail, err)
        }
        Reason::Depth => write_depth(stopped.allowed, err),
        Reason::Spent => write!(
            err,
            "ran out of fuel ({} gives more)",
            stopped.allowed.fuel_by
        ),
    }
}

/// The name of a function in the module's name section.
fn name_of(bytes: &[u8], function: u64) -> Option<Shown<'_>> {
    let index = u32::try_from(function).ok()?;
    Some(Shown(function_name(bytes, index)?))
}

/// Writes a function's index and, where the module has it, its name.
fn write_function<E: Write>(bytes: &[u8], function: u64, err: &mut E) -> io::Result<()> {
    match name_of(bytes, function) {
        Some(name) => write!(err, "function {function} ({name})"),
        None => write!(err, "function {function}"),
    }
}

/// Writes the instruction at which a run stopped, after `before`.
fn write_innermost<E: Write>(
    bytes: &[u8],
    site: Site,
    before: &str,
    err: &mut E,
) -> io::Result<()> {
    let Some(
        Place::Operation {
            function,
            number,
            name,
            at,
        },
    ) = place_of_operation(bytes, site.function, site.operation)
    else {
        return Ok(());
    };
    err.write_all(before.as_bytes())?;
    write_function(bytes, function, err)?;
    write!(err, ", instruction {number} ({name}) at byte {at}")
}

/// Writes one of the calls around it.
fn write_caller<E: Write>(bytes: &[u8], site: Site, err: &mut E) -> io::Result<()> {
    let Some(Place::Operation { function, at, .. }) = place_of_operation(
        bytes,
        site.function,
        site.operation,
    ) else {
        return Ok(());
    };
    err.write_all(b"by ")?;
    write_function(bytes, function, err)?;
    write!(err, " at byte {at}")
}

/// How many calls in a row are of this site, from this index on.
fn repeats(trail: &Trail, site: Site, from: usize) -> usize {
    let calls = trail.as_slice().get(from..).unwrap_or(&[]);
    calls.iter().take_while(|call| **call == site).count()
}

/// Writes that a call is open so many times.
fn write_times<E: Write>(times: usize, err: &mut E) -> io::Result<()> {
    match times {
        0 | 1 => Ok(()),
        _ => write!(err, ", {times} times in a row"),
    }
}

/// Writes the calls around it, from the inside outwards, and how many are left out. Calls of one site in a row are counted.
fn write_callers<E: Write>(bytes: &[u8], trail: &Trail, err: &mut E) -> io::Result<()> {
    let mut between = "; called ";
    let mut next = 1;
    for _ in 1..MAX_TRAIL {
        let Some(site) = trail.get(next) else {
            break;
        };
        err.write_all(between.as_bytes())?;
        write_caller(bytes, site, err)?;
        let times = repeats(trail, site, next);
        write_times(times, err)?;
        next = next.saturating_add(times.max(1));
        between = "; ";
    }
    match trail.more() {
        0 => Ok(()),
        more => write!(err, "; and {more} more"),
    }
}

/// The usual cause of an access outside the memory at this address. A stack that overflows wraps at the start of the memory: its
/// addresses are just below 2^32.
fn cause_of(address: Option<u64>) -> &'static str {
    match address {
        Some(0xfff0_0000..=0xffff_ffff) =>
            "an overflowing stack has such an address (link with a larger -z stack-size)",
        _ => "often a wild pointer or a stack overflow (link with a larger -z stack-size)",
    }
}

/// Writes the usual cause of a run's end, if it has one.
fn write_cause<E: Write>(stopped: &Unfinished<'_>, err: &mut E) -> io::Result<()> {
    match stopped.reason {
        Reason::Trap(TrapCode::Memory) => write!(err, "; {}", cause_of(stopped.trail.address())),
        _ => Ok(()),
    }
}

/// Writes the backtrace of a run of a module of these bytes, after `before`.
pub fn tell_place<E: Write>(
    bytes: &[u8],
    trail: &Trail,
    before: &str,
    err: &mut E,
) -> io::Result<()> {
    if let Some(site) = trail.get(0) {
        write_innermost(bytes, site, before, err)?;
    }
    write_callers(bytes, trail, err)
}

/// Writes a line that says how and where a run of a module of these bytes stopped.
pub fn tell_stopped<W: fmt::Display, E: Write>(
    what: &W,
    bytes: &[u8],
    stopped: &Unfinished<'_>,
    err: &mut E,
) -> io::Result<()> {
    let used = stopped.used;
    write!(err, "{what} ")?;
    write_reason(stopped, err)?;
    write!(err, ", after {used} {}", unit_of(used))?;
    tell_place(bytes, stopped.trail, ", in ", err)?;
    write_cause(stopped, err)?;
    err.write_all(b"\n")
}
