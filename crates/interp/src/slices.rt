// Calls in slices.

ghost use Rattle.std.specs.Prelude.{◌≡◌, ℕ, List, ◌+◌, ◌<◌, ◌≤◌, ◌↔◌, IsTrue, length, None, IsSome, IfSome};
ghost use Rattle.syntax.specs.declared.types.Value.{Value as Argument};
ghost use Rattle.valid.specs.Valid.{ValidModule};
ghost use Rattle.valid.specs.Targets.{AreTables};
ghost use Rattle.events.specs.declared.ended.BareEnding.TheVariants as bare;
ghost use Rattle.instance.specs.Store.{Store};
ghost use Rattle.instance.specs.Storing.{IsStoreOf};
ghost use Rattle.instance.specs.Stops.{stop_of};
ghost use Rattle.reduction.specs.Hosting.{Names};
ghost use Rattle.reduction.specs.Invoking.{TakesArguments, ReturnsTyped};
ghost use Rattle.interp.specs.Lent.{ended_in, result_count};
ghost use Rattle.interp.specs.Slices.{RunIsPaused, IsSomePaused, RunIsOver, IsMost, UsesAll, UsesSome};

use crate::call::{FunctionCall, ModuleCode};
use crate::host::Host;
use crate::invoke::{ended_with, result_count};
use crate::opening::open;
use crate::over_host::{Outermost, read_results, run_within};
pub use crate::paused::{Paused, UNIT_BYTES};
use engine::{Flow, Program, Stopped};
use events::ended::{BareEnded, BareEnding, Ended};
use instance::stack::{Caller, Last, Slots};
use instance::state::State;
use limits::{MAX_DEPTH, MAX_RESULTS};
use std::marker::PhantomData;
use syntax::types::Value;
use valid::type_of_function;

/// A call that is under way, and how many units of fuel it may use until it is paused again.
#[derive(Clone, Copy)]
pub struct Slice {
    pub paused: Paused,
    pub units: u64,
}

/// How a call in slices is over: its ending, and where it stopped, unless it returned.
#[derive(Clone, Copy)]
pub(crate) struct Over {
    pub ended: BareEnded,
    pub last: Option<Last>,
}

/// A host that is asked in slices. A slice is run by a copy of the loop that is not that of a whole call: all that go on with a call share
/// one, while what calls a function at once has it inlined.
struct InSlices<H> {
    host: PhantomData<H>,
}

/// Begins a call of a defined function on this state, with room for these callers, over this host: nothing runs yet.
pub(crate) fn begin<H: Host>(
    code: &ModuleCode,
    state: &State,
    host: &H,
    slots: &mut Slots,
    frames: &[Caller],
    call: &FunctionCall,
) -> Paused
    requires valid { ValidModule code.now.contents.now }
    requires agree { AreTables code.now.contents.now code.now.tables.now }
    requires store { IsStoreOf code.now.contents.now state.now }
    requires typed { TakesArguments code.now.contents.now call.now.function call.now.args.now }
    requires defined { length code.now.contents.now.imports ≤ call.now.function }
    requires depth { (1 ≤ call.now.depth) × (call.now.depth ≤ MAX_DEPTH) }
    requires room { MAX_DEPTH ≤ length frames.now }
    ensures paused { RunIsPaused code.now.contents.now code.now.tables.now H.moves state.now host.now call.now.args.now call.now.fuel result slots.new frames.now state.now host.now }
    ensures function { result.function ≡ call.now.function }
    ensures depth { result.depth ≡ call.now.depth }
    ensures used { result.used ≡ 0 }
    ensures left { result.left ≡ call.now.fuel }
{
    let at = open(code.contents, slots, call.function, call.args);
    Paused {
        function: call.function,
        depth: call.depth,
        at,
        used: 0,
        left: call.fuel,
        last: None,
    }
}

/// Whether a run that ended so is paused: it spent what it was granted, and more is left.
fn is_paused(ended: BareEnded, left: u64) -> bool
    ensures { IsTrue result ↔ ((ended.ending ≡ bare.Spent) × (ended.used < left)) }
{
    ended.used < left && matches!(ended.ending, BareEnding::Spent)
}

/// How many bytes a host may have copied until a slice of so many units ends, which had copied so many before it.
fn most_bytes(copied: u64, units: u64) -> u64
    ensures { IsMost copied units result }
{
    copied.saturating_add(units.saturating_mul(UNIT_BYTES))
}

/// Goes on with a call for at most the units of the slice, where each `UNIT_BYTES` that the host copies count as one. If it is over then, its
/// ending is returned, with all fuel that it has used since it began and where it was over, unless it returned, and its results are in the first
/// of the places that are lent, at least as many as the function has; else some fuel is left, and it stands where a run with just so much fuel as
/// it has used is over as spent.
#[inline(never)]
pub(crate) fn go_on_lent<H: Host>(
    code: &ModuleCode,
    state: &mut State,
    host: &mut H,
    slots: &mut Slots,
    frames: &mut [Caller],
    slice: &mut Slice,
    places: &mut [Value],
) -> Option<Over>
    requires valid { ValidModule code.now.contents.now }
    requires agree { AreTables code.now.contents.now code.now.tables.now }
    requires names { Names code.now.contents.now (H.types host.old) }
    requires room { MAX_DEPTH ≤ length frames.old }
    requires paused { IsSomePaused code.now.contents.now code.now.tables.now H.moves slice.old.paused slots.old frames.old state.old host.old }
    requires places { result_count code.now.contents.now slice.old.paused.function ≤ length places.old }
    ensures over { IfSome result (λ o. (s : Store) (before : H) (args : List Argument) (fuel : ℕ)
        → RunIsPaused code.now.contents.now code.now.tables.now H.moves s before args fuel slice.old.paused slots.old frames.old state.old host.old
        → RunIsOver code.now.contents.now slice.old.paused.depth H.moves slice.old.paused.function s before args fuel
        (ended_in code.now.contents.now slice.old.paused.function o.ended places.new) state.new host.new (stop_of o.last frames.new)) }
    ensures paused { result ≡ None → (s : Store) (before : H) (args : List Argument) (fuel : ℕ)
        → RunIsPaused code.now.contents.now code.now.tables.now H.moves s before args fuel slice.old.paused slots.old frames.old state.old host.old
        → RunIsPaused code.now.contents.now code.now.tables.now H.moves s before args fuel slice.new.paused slots.new frames.new state.new host.new }
    ensures stands { result ≡ None → IsSome slice.new.paused.last }
    ensures call { (slice.new.paused.function ≡ slice.old.paused.function) × (slice.new.paused.depth ≡ slice.old.paused.depth) }
    ensures slice { result ≡ None → UsesAll slice.old.paused slice.old.units (H.copied host.old) (H.copied host.new) slice.new.paused }
    ensures last { IfSome result (λ o. UsesSome slice.old.paused slice.old.units (H.copied host.old) (H.copied host.new) o.ended.used) }
    ensures results { IfSome result (λ o. ReturnsTyped code.now.contents.now slice.old.paused.function (ended_in code.now.contents.now slice.old.paused.function o.ended places.new).ending) }
    ensures callers { IfSome result (λ o. IfSome o.last (λ l. l.depth ≤ MAX_DEPTH)) }
    ensures kept { IsStoreOf code.now.contents.now state.new }
    ensures copies { H.copied host.old ≤ H.copied host.new }
    ensures types { H.types host.new ≡ H.types host.old }
{
    let Slice { paused, units } = *slice;
    let Some(func_type) = type_of_function(code.contents, paused.function) else {
        unreachable!()
    };
    let outermost = Outermost {
        contents: code.contents,
        program: Program::new(code.contents, code.tables),
        types: func_type.results.as_slice(),
        depth: paused.depth,
        bytes: most_bytes(host.copied(), units),
    };
    let mut place = Stopped {
        flow: Flow::Spent,
        at: paused.at,
        fuel: units.min(paused.left),
    };
    let run = run_within::<H, InSlices<H>>(&outermost, slots, frames, state, host, &mut place);
    let ended = run.ended;
    if is_paused(ended, paused.left) {
        slice.paused = Paused {
            function: paused.function,
            depth: paused.depth,
            at: place.at,
            used: paused.used + ended.used,
            left: paused.left - ended.used,
            last: run.last,
        };
        return None;
    }
    read_results(ended.ending, outermost.types, slots, place.at.sp, places);
    let mut whole = ended;
    whole.used += paused.used;
    Some(Over {
        ended: whole,
        last: run.last,
    })
}

/// Does what `go_on_lent` does, with room for the most results.
pub(crate) fn go_on<H: Host>(
    code: &ModuleCode,
    state: &mut State,
    host: &mut H,
    slots: &mut Slots,
    frames: &mut [Caller],
    ended_at: &mut Option<Last>,
    slice: &mut Slice,
) -> Option<Ended>
    requires valid { ValidModule code.now.contents.now }
    requires agree { AreTables code.now.contents.now code.now.tables.now }
    requires names { Names code.now.contents.now (H.types host.old) }
    requires room { MAX_DEPTH ≤ length frames.old }
    requires paused { IsSomePaused code.now.contents.now code.now.tables.now H.moves slice.old.paused slots.old frames.old state.old host.old }
    ensures over { IfSome result (λ o. (s : Store) (before : H) (args : List Argument) (fuel : ℕ)
        → RunIsPaused code.now.contents.now code.now.tables.now H.moves s before args fuel slice.old.paused slots.old frames.old state.old host.old
        → RunIsOver code.now.contents.now slice.old.paused.depth H.moves slice.old.paused.function s before args fuel o state.new host.new (stop_of ended_at.new frames.new)) }
    ensures paused { result ≡ None → (s : Store) (before : H) (args : List Argument) (fuel : ℕ)
        → RunIsPaused code.now.contents.now code.now.tables.now H.moves s before args fuel slice.old.paused slots.old frames.old state.old host.old
        → RunIsPaused code.now.contents.now code.now.tables.now H.moves s before args fuel slice.new.paused slots.new frames.new state.new host.new }
    ensures stands { result ≡ None → IsSome slice.new.paused.last }
    ensures call { (slice.new.paused.function ≡ slice.old.paused.function) × (slice.new.paused.depth ≡ slice.old.paused.depth) }
    ensures slice { result ≡ None → UsesAll slice.old.paused slice.old.units (H.copied host.old) (H.copied host.new) slice.new.paused }
    ensures last { IfSome result (λ o. UsesSome slice.old.paused slice.old.units (H.copied host.old) (H.copied host.new) o.used) }
    ensures results { IfSome result (λ o. ReturnsTyped code.now.contents.now slice.old.paused.function o.ending) }
    ensures callers { IfSome result (λ _. IfSome ended_at.new (λ l. l.depth ≤ MAX_DEPTH)) }
    ensures same { result ≡ None → ended_at.new ≡ ended_at.old }
    ensures kept { IsStoreOf code.now.contents.now state.new }
    ensures copies { H.copied host.old ≤ H.copied host.new }
    ensures types { H.types host.new ≡ H.types host.old }
{
    let count = result_count(code.contents, slice.paused.function);
    let mut places = [Value::I32(0); MAX_RESULTS];
    let over = go_on_lent(code, state, host, slots, frames, slice, &mut places)?;
    *ended_at = over.last;
    Some(ended_with(over.ended, &places[..count]))
}
