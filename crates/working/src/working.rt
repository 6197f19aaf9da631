// What comes of a work order.

ghost use Rattle.std.specs.Prelude.{◌≡◌, ◌≤◌, ◌↔◌, ℕ, IfOk, codes, false, length};
ghost use Rattle.std.specs.Arc.{arc_value};
ghost use Rattle.imports.specs.Linking.{ExportsFunction};
ghost use Rattle.limits.specs.declared.TheConstants.{MAX_BYTES};
ghost use Rattle.order.specs.Orders.{end_of, order_of};
ghost use Rattle.order.specs.Work.{IsEndOf};
ghost use Rattle.working.specs.Working.{IsResult, OnResult, OnStopped, asked_order, HasComputed, HasNoResult};

use crate::output::tell_outcome;
use crate::report::WorkReport;
use files::{FileWriter, IoFault};
use imports::{EntryPoint, Linked};
use order::laws::one_end;
use order::{Order, Outcome, Told, Trail};
use sentences::{Allowed, Unfinished, tell_stopped, unit_of};
use std::alloc::{AllocError, Global};
use std::io::{self, Write};
use std::sync::Arc;
use syntax::contents::Contents;
use words::WorkRequest;

/// The order as request 1 of loop 0, in slot 0.
fn request(
    alloc: Global,
    linked: Linked,
    work: &WorkRequest,
    bytes: Arc<Vec<u8>>,
) -> Result<Order, AllocError>
    ensures { IfOk result (λ order. order_of order ≡ asked_order work.now (arc_value bytes).items linked) }
{
    let module = Arc::new(alloc, linked)?;
    Ok(Order {
        loop_no: 0,
        request: 1,
        slot: 0,
        module,
        op: work.operation,
        bytes,
        fuel: work.fuel,
        depth: work.depth,
    })
}

fn report_of(outcome: &Outcome) -> WorkReport
    ensures { (result ≡ WorkReport.Result) ↔ IsResult (end_of outcome.now) }
{
    match outcome {
        Outcome::Done(_, _) => WorkReport::Result,
        Outcome::Trap(_) | Outcome::Depth | Outcome::Spent | Outcome::NoMemory(_) =>
            WorkReport::Stopped,
    }
}

/// The reply that the module computes of these bytes, what it used and where it stopped.
fn reply_of(
    alloc: Global,
    linked: Linked,
    work: &WorkRequest,
    bytes: Arc<Vec<u8>>,
) -> Result<Told, AllocError>
    requires there { (f : ℕ) × ExportsFunction linked.contents (codes "uv_work") f }
    requires short { length (arc_value bytes).items ≤ MAX_BYTES }
    ensures { IfOk result (λ told. IsEndOf (asked_order work.now (arc_value bytes).items linked) (end_of told.reply.outcome)) }
{
    one_end();
    // valid, as its type says
    let _contents = linked.valid().contents();
    let order = request(alloc, linked, work, bytes)?;
    Ok(order.run_told(alloc))
}

/// Which function the outermost call of a trail is of.
fn name_of_run(contents: &Contents, trail: &Trail) -> &'static str {
    let work = EntryPoint::Work.name();
    let Some(start) = contents.start else {
        return work;
    };
    let Some(last) = trail.as_slice().last() else {
        return work;
    };
    if trail.more() > 0 {
        return "start function or uv_work";
    }
    if last.function.saturating_add(contents.imports.len()) == start as usize {
        "start function"
    } else {
        work
    }
}

/// Writes a sentence that says where the work stopped.
fn explain<E: Write>(told: &Told, err: &mut E) -> io::Result<()> {
    let module = told.reply.order.module.valid().module();
    let allowed = Allowed::by_options(told.reply.order.depth);
    match Unfinished::of_told(told, allowed) {
        Some(stopped) => {
            let what = name_of_run(module.contents(), stopped.trail);
            tell_stopped(&what, module.bytes(), &stopped, err)
        }
        None => Ok(()),
    }
}

/// The same, if it did not return.
fn explain_end<E: Write>(told: &Told, err: &mut E)
    ensures quiet { IsResult (end_of told.now.reply.outcome) → err.new ≡ err.old }
{
    match &told.reply.outcome {
        Outcome::Done(_, _) => {}
        Outcome::Trap(_) | Outcome::Depth | Outcome::Spent | Outcome::NoMemory(_) => {
            // a sentence that can't be written changes nothing
            let _ = explain(told, err);
        }
    }
}

/// Reports the fuel used, and the limit.
pub fn tell_used<E: Write>(used: u64, fuel: u64, err: &mut E) -> io::Result<()> {
    writeln!(err, "used {used} of {fuel} {}", unit_of(fuel))
}

/// Reports the fuel that the work used, on request.
fn trace<E: Write>(told: &Told, work: &WorkRequest, err: &mut E)
    ensures quiet { work.now.is_traced ≡ false → err.new ≡ err.old }
{
    if work.is_traced {
        // a line that can't be written changes nothing
        let _ = tell_used(told.used, work.fuel, err);
    }
}

/// Reports where the work stopped, if it did not return, and on request the fuel used.
fn say_more<E: Write>(told: &Told, work: &WorkRequest, err: &mut E)
    ensures quiet { IsResult (end_of told.now.reply.outcome) → work.now.is_traced ≡ false → err.new ≡ err.old }
{
    explain_end(told, err);
    trace(told, work, err);
}

/// Runs the module's `uv_work` as the command asks, with these input bytes, and writes the outcome where the command says.
pub fn work<'a, F: FileWriter, O: Write, E: Write>(
    alloc: Global,
    linked: Linked,
    bytes: Arc<Vec<u8>>,
    work: &'a WorkRequest,
    files: &F,
    out: &mut O,
    err: &mut E,
) -> Result<WorkReport, IoFault<'a>>
    requires there { (f : ℕ) × ExportsFunction linked.contents (codes "uv_work") f }
    requires short { length (arc_value bytes).items ≤ MAX_BYTES }
    ensures computed { OnResult result (HasComputed (F.takes files.now) (O.contents out.old) (O.contents out.new) (E.contents err.old) (E.contents err.new) work.now (arc_value bytes).items linked) }
    ensures ended { OnStopped result (HasNoResult (F.takes files.now) (O.contents out.old) (O.contents out.new) work.now (arc_value bytes).items linked) }
{
    let told = reply_of(alloc, linked, work, bytes)?;
    tell_outcome(alloc, &told.reply.outcome, &work.output, files, out, err)?;
    say_more(&told, work, err);
    Ok(report_of(&told.reply.outcome))
}
