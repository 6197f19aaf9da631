// The host is asked for an import.

ghost use Rattle.std.specs.Prelude.{◌≡◌, ◌≤◌, ◌<◌, ◌+◌, ◌^◌, drop, length, IsSome, Some};
ghost use Rattle.limits.specs.declared.TheConstants.{MAX_BYTES};
ghost use Rattle.valid.specs.Typing.{type_of_function};
ghost use Rattle.reduction.specs.Run.{IsImported, as_operands};
ghost use Rattle.reduction.specs.Hosting.{Names};
ghost use Rattle.interp.specs.Slots.Holding.{AreSmall};
ghost use Rattle.interp.specs.Slots.Resuming.{laid};
ghost use Rattle.interp.specs.Inner.Slots.HostAsked.{CanAsk, AsksImport};

use crate::host::{Args, Host};
use crate::reading::number_of;
use engine::At;
use instance::stack::Slots;
use instance::state::State;
use syntax::contents::{Contents, FuncType};
use syntax::types::Value;

/// Lays an answer down, where there is one, and returns how many slots it takes.
fn lay_answer(slots: &mut [u64], place: usize, answer: Option<Value>) -> usize
    requires { place + length (as_operands answer) ≤ length slots.old }
    ensures laid { slots.new ≡ laid answer place slots.old }
    ensures count { result ≡ length (as_operands answer) }
    ensures small { AreSmall (as_operands answer) }
{
    match answer {
        None => 0,
        Some(value) => {
            slots[place] = number_of(value);
            1
        }
    }
}

/// The type of an import.
#[inline(always)]
fn type_of_import(contents: &Contents, import: usize) -> &FuncType
    requires imported { IsImported contents.now import }
    requires known { IsSome (type_of_function contents.now import) }
    ensures { Some result.now ≡ type_of_function contents.now import }
{
    let import = &contents.imports.as_slice()[import];
    &contents.types.as_slice()[import.type_index as usize]
}

/// Asks the host for an import, whose arguments are the topmost slots up to a height. Its answer takes their place, and
/// the run goes on after the call.
#[inline(always)]
fn ask_host<H: Host>(
    contents: &Contents,
    state: &mut State,
    host: &mut H,
    slots: &mut [u64],
    at: &mut At,
    import: usize,
    height: usize,
)
    requires can { CanAsk contents.now import height (length slots.old) }
    requires names { Names contents.now (H.types host.old) }
    requires steps { at.old.pc + 1 < 2 ^ 64 }
    ensures asked { AsksImport contents.now H.moves import height at.old slots.old state.old host.old at.new slots.new state.new host.new }
    ensures copies { H.copied host.old ≤ H.copied host.new }
    ensures few { H.copied host.new ≤ H.copied host.old + MAX_BYTES }
    ensures types { H.types host.new ≡ H.types host.old }
{
    let params = type_of_import(contents, import).params.as_slice();
    let place = height - params.len();
    let lent = &slots[place..height];
    let answer = host.call(import as u32, &Args::laid(params, lent), state.memory_mut());
    let results = lay_answer(slots, place, answer);
    at.pc += 1;
    at.sp = place + results;
}

/// Asks the host on the slots above the one at the bottom.
#[inline(always)]
fn ask_above<H: Host>(
    contents: &Contents,
    state: &mut State,
    host: &mut H,
    slots: &mut [u64],
    at: &mut At,
    import: usize,
    height: usize,
)
    requires bottom { 1 ≤ length slots.old }
    requires can { CanAsk contents.now import height (length (drop 1 slots.old)) }
    requires names { Names contents.now (H.types host.old) }
    requires steps { at.old.pc + 1 < 2 ^ 64 }
    ensures asked { AsksImport contents.now H.moves import height at.old (drop 1 slots.old) state.old host.old at.new (drop 1 slots.new) state.new host.new }
    ensures copies { H.copied host.old ≤ H.copied host.new }
    ensures few { H.copied host.new ≤ H.copied host.old + MAX_BYTES }
    ensures types { H.types host.new ≡ H.types host.old }
{
    ask_host(contents, state, host, &mut slots[1..], at, import, height);
}

/// Asks the host on the slots of all calls. Each copy of the loop has one of its own, which LLVM then inlines there: with `inline(always)`, what
/// the loop is inlined into would grow too large for rattle to inline it.
pub fn ask_on<H: Host, AskedBy>(
    contents: &Contents,
    state: &mut State,
    host: &mut H,
    slots: &mut Slots,
    at: &mut At,
    import: usize,
    height: usize,
)
    requires can { CanAsk contents.now import height (length slots.old) }
    requires names { Names contents.now (H.types host.old) }
    requires steps { at.old.pc + 1 < 2 ^ 64 }
    ensures asked { AsksImport contents.now H.moves import height at.old slots.old state.old host.old at.new slots.new state.new host.new }
    ensures copies { H.copied host.old ≤ H.copied host.new }
    ensures few { H.copied host.new ≤ H.copied host.old + MAX_BYTES }
    ensures types { H.types host.new ≡ H.types host.old }
{
    ask_above(
        contents,
        state,
        host,
        slots.as_mut_slice(),
        at,
        import,
        height,
    );
}
