// What a step of a script names that does not exist.

use limits::MAX_ASYNCS;
use std::fmt;
use world_log::Step;

/// The greatest number of an async.
const LAST_ASYNC: usize = MAX_ASYNCS - 1;

/// How many loops and workers a script has.
#[derive(Clone, Copy, Debug)]
pub struct Counts {
    pub loops: usize,
    pub workers: u32,
}

/// A step that names something that does not exist, in a script with these counts.
#[derive(Clone, Copy, Debug)]
pub struct Missing {
    pub step: Step,
    pub counts: Counts,
}

/// The name of a step, and its numbers.
fn parts_of(step: Step) -> (&'static str, u32, Option<u64>) {
    match step {
        Step::Loop(number) => ("loop", number, None),
        Step::Post(number) => ("post", number, None),
        Step::Take(number) => ("take", number, None),
        Step::Start(number) => ("start", number, None),
        Step::Finish(number) => ("finish", number, None),
        Step::Collect(number) => ("collect", number, None),
        Step::Send(loop_no, number) => ("send", loop_no, Some(u64::from(number))),
        Step::Cancel(loop_no, number) => ("cancel", loop_no, Some(u64::from(number))),
        Step::Clock(loop_no, clock) => ("clock", loop_no, Some(clock)),
    }
}

fn write_step<W: fmt::Write>(f: &mut fmt::Formatter<W>, step: Step) -> fmt::Result {
    let (name, first, second) = parts_of(step);
    match second {
        Some(second) => write!(f, "[\"{name}\",{first},{second}]"),
        None => write!(f, "[\"{name}\",{first}]"),
    }
}

/// Writes that there is no loop or worker of this number, and how many there are.
fn write_absent<W: fmt::Write>(
    f: &mut fmt::Formatter<W>,
    name: &str,
    number: u32,
    count: usize,
) -> fmt::Result {
    write!(
        f,
        "there is no {name} {number}; {name}s in the script: {count}"
    )
}

impl fmt::Display for Missing {
    fn fmt<W: fmt::Write>(&self, f: &mut fmt::Formatter<W>) -> fmt::Result {
        write_step(f, self.step)?;
        f.write_str(": ")?;
        match self.step {
            Step::Take(number) | Step::Start(number) | Step::Finish(number) => {
                write_absent(f, "worker", number, self.counts.workers as usize)
            }
            Step::Send(loop_no, number) if (loop_no as usize) < self.counts.loops => {
                write!(
                    f,
                    "there is no async {number}; asyncs are numbered 0 to {LAST_ASYNC}"
                )
            }
            Step::Loop(number)
            | Step::Post(number)
            | Step::Collect(number)
            | Step::Send(number, _)
            | Step::Cancel(number, _)
            | Step::Clock(number, _) => write_absent(f, "loop", number, self.counts.loops),
        }
    }
}
