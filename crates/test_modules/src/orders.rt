// What is reported of a run of an order, at once and in slices: what becomes of it, the units that it used, and where it stopped.

ghost use Rattle.std.specs.Prelude.{◌≤◌};

use crate::rows::{RowTeller, check_rows};
use imports::{EntryPoint, Linked};
use order::{Order, OrderGoing, Outcome, Running, Told, Trail};
use std::alloc::{AllocError, Global};
use std::sync::Arc;
use std::test::Fail;
use test_fixtures::{guest_of, joined};

/// A module's front, with a type from an i32 to an i32, and one from nothing to nothing.
const FRONT: &str = "0061736d01000000 010902 60017f017f 600000";

/// Sections after it, and what is reported of `uv_work` with operation 5, with 200 units and 64 calls: the sites are numbers of
/// defined functions, each with that of an operation.
const MODULES: &str = "
    # it returns, by itself and behind a start function of two units
    03020100 070b010775765f776f726b0000 0a090107002000 41016a0b = done 6 used 3
    0303020001 070b010775765f776f726b0000 080101 0a0f0207002000 41016a0b 050041051a0b = done 6 used 5
    # it is an import, which answers -1, by itself and behind a start function of two units
    021001 027576 0969735f616374697665 0000 070b010775765f776f726b0000 = done 4294967295 used 0
    021001 027576 0969735f616374697665 0000 03020101 070b010775765f776f726b0000 080101 0a0701050041051a0b = done 4294967295 used 2
    # it divides by zero within two calls
    030403000000 070b010775765f776f726b0002 0a180307002000 41006d0b 0700012000 10000b 0600200010010b = trap 2 used 8 in 0:2 1:2 2:1
    # the start function traps behind a nop
    0303020001 070b010775765f776f726b0000 080101 0a0e0207002000 41016a0b 040001000b = trap 1 used 2 in 1:1
    # it calls itself
    03020100 070b010775765f776f726b0000 0a08010600200010000b = depth used 128 in 0:1 0:1 0:1 0:1 0:1 0:1 0:1 0:1 0:1 0:1 0:1 0:1 0:1 0:1 0:1 0:1 0:1 and 47 more
    # it never ends, by itself and behind a start function of three units
    03020100 070b010775765f776f726b0000 0a0a0108000340 0c000b000b = spent used 200 in 0:0
    0303020001 070b010775765f776f726b0000 080101 0a110208000340 0c000b000b 06000141051a0b = spent used 200 in 0:1
";

/// Goes on in slices of so many units, at most 1,000 of them.
fn finish(running: Running, units: u64) -> Result<Told, Fail>
    requires { 1 ≤ units }
{
    let mut running = running;
    for _ in 0..1000 {
        match running.go_on(units) {
            OrderGoing::Over(told) => return Ok(told),
            OrderGoing::Paused(paused) => running = paused,
        }
    }
    Err(Fail::from("it is not over"))
}

/// A run at once, or in slices of so many units.
fn run(alloc: Global, linked: Arc<Linked>, units: u64) -> Result<Told, Fail> {
    let Some(_work) = linked.entry(EntryPoint::Work) else {
        return Err(Fail::from("no `uv_work`"));
    };
    let order = Order {
        loop_no: 0,
        request: 1,
        slot: 0,
        module: linked,
        op: 5,
        bytes: Arc::new(alloc, Vec::new(alloc))?,
        fuel: 200,
        depth: 64,
    };
    if units == 0 {
        return Ok(order.run_told(alloc));
    }
    match order.begin(alloc) {
        Ok(running) => finish(running, units),
        Err(_) => Err(Fail::from("no memory")),
    }
}

fn tell_outcome(text: &mut String, outcome: &Outcome) -> Result<(), AllocError> {
    match outcome {
        Outcome::Done(value, _) => write!(text, "done {value}"),
        Outcome::Trap(trap) => write!(text, "trap {}", trap.code()),
        Outcome::Depth => text.push_str("depth"),
        Outcome::Spent => text.push_str("spent"),
        Outcome::NoMemory(_) => text.push_str("no memory"),
    }
}

fn tell_sites(text: &mut String, trail: &Trail) -> Result<(), AllocError> {
    text.push_str(" in")?;
    for site in trail.as_slice() {
        write!(text, " {}:{}", site.function, site.operation)?;
    }
    match trail.more() {
        0 => Ok(()),
        more => write!(text, " and {more} more"),
    }
}

fn tell(text: &mut String, told: &Told) -> Result<(), AllocError> {
    tell_outcome(text, &told.reply.outcome)?;
    write!(text, " used {}", told.used)?;
    match &told.trail {
        Some(trail) => tell_sites(text, trail),
        None => Ok(()),
    }
}

fn told_of(alloc: Global, told: &Told) -> Result<String, AllocError> {
    let mut text = String::new(alloc);
    tell(&mut text, told)?;
    Ok(text)
}

/// Tells of the sections of a guest what is reported of its run, at once or in slices of so many units.
#[derive(Drop)]
struct Slices {
    units: u64,
}

impl RowTeller for Slices {
    fn tell(&self, alloc: Global, sections: &str) -> Result<String, Fail> {
        let guest = guest_of(alloc, joined(alloc, FRONT, sections)?)?;
        let told = run(alloc, guest, self.units)?;
        let text = told_of(alloc, &told);
        drop(told);
        Ok(text?)
    }
}

#[test]
fn a_run_tells_what_it_used_and_where_it_stopped(rt: HostRuntime) -> Result<(), Fail> {
    check_rows(&rt, rt.alloc(), MODULES, &Slices { units: 0 })
}

#[test]
fn in_slices_it_tells_the_same(rt: HostRuntime) -> Result<(), Fail> {
    for units in [1, 2, 3, 7, 199, 200, 201] {
        check_rows(&rt, rt.alloc(), MODULES, &Slices { units })?;
    }
    Ok(())
}
