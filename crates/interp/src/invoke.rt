// Calls of functions from outside (WebAssembly Core 1.0, 4.5.5).

ghost use Rattle.std.specs.Prelude.{◌≡◌, ◌≤◌, ◌<◌, length, take, None, IfSome};
ghost use Rattle.reduction.specs.Run.{as_operands};
ghost use Rattle.events.specs.Bare.{whole};
ghost use Rattle.valid.specs.Valid.{ValidModule};
ghost use Rattle.valid.specs.Targets.{AreTables};
ghost use Rattle.instance.specs.Storing.{IsStoreOf};
ghost use Rattle.reduction.specs.Hosting.{Names};
ghost use Rattle.reduction.specs.Invoking.{TakesArguments, HasNoResults, ReturnsTyped};
ghost use Rattle.reduction.specs.Leading.{Leads, calling, scene};
ghost use Rattle.instance.specs.Stops.{stop_of};
ghost use Rattle.interp.specs.Inner.Calling.{CanCall, CallDoes};
ghost use Rattle.interp.specs.Lent.{result_count, ended_in, ended_with};

use crate::call::{FunctionCall, ModuleCode};
use crate::host::{Args, Host};
use crate::opening::open;
use crate::over_host::{EndedRun, Outermost, read_results, run_within};
use engine::{Flow, Program, Stopped};
use events::ended::{BareEnded, BareEnding, Ended, Ending};
use events::values::Values;
use instance::stack::{CallStack, Caller, Slots};
use instance::state::{Instance, State};
use limits::{MAX_DEPTH, MAX_RESULTS};
use syntax::contents::Contents;
use syntax::types::Value;
use valid::{Valid, type_of_function};

/// How many results a function has.
pub(crate) fn result_count(contents: &Contents, function: u32) -> usize
    ensures { result ≡ result_count contents.now function }
{
    match type_of_function(contents, function) {
        Some(func_type) => func_type.results.len(),
        None => 0,
    }
}

/// The ending of a call with these results, where it returned.
pub fn ended_with(ended: BareEnded, results: &[Value]) -> Ended
    requires { length results.now ≤ MAX_RESULTS }
    ensures { result ≡ ended_with ended results.now }
{
    let ending = match ended.ending {
        BareEnding::Return => Ending::Return(Values::from_slice(results)),
        other => other.whole(),
    };
    Ended {
        ending,
        used: ended.used,
    }
}

/// Writes an answer of the host, where there is one, to the first place.
fn place_answer(answer: Option<Value>, places: &mut [Value])
    requires { length (as_operands answer) ≤ length places.old }
    ensures { take (length (as_operands answer)) places.new ≡ as_operands answer }
{
    if let Some(value) = answer {
        places[0] = value;
    }
}

/// Asks the host for an import, and writes its answer, where there is one, to the first place.
#[inline(never)]
pub(crate) fn invoke_import<H: Host>(
    contents: &Contents,
    state: &mut State,
    host: &mut H,
    places: &mut [Value],
    call: &FunctionCall,
) -> BareEnded
    requires can { CanCall contents.now state.old (H.types host.old) call.now.function call.now.args.now }
    requires imported { call.now.function < length contents.now.imports }
    requires room { result_count contents.now call.now.function ≤ length places.old }
    ensures does { CallDoes contents.now call.now.depth call.now.fuel H.moves state.old host.old call.now.function call.now.args.now
        (ended_in contents.now call.now.function result places.new) state.new host.new None }
    ensures types { H.types host.new ≡ H.types host.old }
{
    let answer = host.call(call.function, &Args::new(call.args), state.memory_mut());
    place_answer(answer, places);
    BareEnded {
        ending: BareEnding::Return,
        used: 0,
    }
}

/// Calls a defined function, whose callers may take the first `depth` - 1 places of `frames`, reads its results into the first places, and
/// returns how and where the call ended.
#[inline(always)]
pub(crate) fn invoke_defined<H: Host>(
    code: &ModuleCode,
    state: &mut State,
    host: &mut H,
    slots: &mut Slots,
    frames: &mut [Caller],
    places: &mut [Value],
    call: &FunctionCall,
) -> EndedRun
    requires valid { ValidModule code.now.contents.now }
    requires agree { AreTables code.now.contents.now code.now.tables.now }
    requires can { CanCall code.now.contents.now state.old (H.types host.old) call.now.function call.now.args.now }
    requires defined { length code.now.contents.now.imports ≤ call.now.function }
    requires depth { (1 ≤ call.now.depth) × (call.now.depth ≤ MAX_DEPTH) }
    requires room { MAX_DEPTH ≤ length frames.old }
    requires places { result_count code.now.contents.now call.now.function ≤ length places.old }
    ensures does { CallDoes code.now.contents.now call.now.depth call.now.fuel H.moves state.old host.old call.now.function call.now.args.now
        (ended_in code.now.contents.now call.now.function result.ended places.new) state.new host.new (stop_of result.last frames.new) }
    ensures types { H.types host.new ≡ H.types host.old }
    ensures callers { IfSome result.last (λ l. l.depth ≤ MAX_DEPTH) }
{
    let Some(func_type) = type_of_function(code.contents, call.function) else {
        unreachable!()
    };
    let at = open(code.contents, slots, call.function, call.args);
    let outermost = Outermost {
        contents: code.contents,
        program: Program::new(code.contents, code.tables),
        types: func_type.results.as_slice(),
        depth: call.depth,
        bytes: u64::MAX,
    };
    let mut place = Stopped {
        flow: Flow::Spent,
        at,
        fuel: call.fuel,
    };
    let run = run_within::<H, H>(&outermost, slots, frames, state, host, &mut place);
    read_results(
        run.ended.ending,
        outermost.types,
        slots,
        place.at.sp,
        places,
    );
    run
}

/// Calls a function of a module on one of its instances, with these arguments and so much fuel. At most `depth`, 1 to `MAX_DEPTH`,
/// calls stand open, this one among them; calls of the host are not counted. A call of an imported function is one
/// call of the host, and uses no fuel. No memory is taken: the instance has room for the slots of all calls. `last_stop` of the
/// instance then has where the call stopped, unless it returned.
pub fn invoke<H: Host>(
    valid: &Valid,
    instance: &mut Instance,
    host: &mut H,
    function: u32,
    args: &[Value],
    fuel: u64,
    depth: u32,
) -> Ended
    requires store { IsStoreOf valid.now.contents instance.old.state }
    requires names { Names valid.now.contents (H.types host.old) }
    requires typed { TakesArguments valid.now.contents function args.now }
    requires depth { (1 ≤ depth) × (depth ≤ MAX_DEPTH) }
    ensures runs { Leads H.moves (calling valid.now.contents function args.now fuel depth) (scene instance.old.state host.old) result instance.new.stack (scene instance.new.state host.new) }
    ensures within { result.used ≤ fuel }
    ensures results { ReturnsTyped valid.now.contents function result.ending }
    ensures kept { IsStoreOf valid.now.contents instance.new.state }
    ensures types { H.types host.new ≡ H.types host.old }
{
    let Instance { state, stack } = instance;
    let call = FunctionCall {
        function,
        args,
        fuel,
        depth,
    };
    invoke_on(valid, state, stack, host, &call)
}

/// Calls it on the state and the stack of an instance. The stack then has where the call stopped, unless it ended by
/// return: at which operation of which function, and within which calls.
pub fn invoke_on<H: Host>(
    valid: &Valid,
    state: &mut State,
    stack: &mut CallStack,
    host: &mut H,
    call: &FunctionCall,
) -> Ended
    requires store { IsStoreOf valid.now.contents state.old }
    requires names { Names valid.now.contents (H.types host.old) }
    requires typed { TakesArguments valid.now.contents call.now.function call.now.args.now }
    requires depth { (1 ≤ call.now.depth) × (call.now.depth ≤ MAX_DEPTH) }
    ensures runs { Leads H.moves (calling valid.now.contents call.now.function call.now.args.now call.now.fuel call.now.depth) (scene state.old host.old) result stack.new (scene state.new host.new) }
    ensures within { result.used ≤ call.now.fuel }
    ensures results { ReturnsTyped valid.now.contents call.now.function result.ending }
    ensures kept { IsStoreOf valid.now.contents state.new }
    ensures types { H.types host.new ≡ H.types host.old }
{
    let mut places = [Value::I32(0); MAX_RESULTS];
    let count = result_count(valid.contents(), call.function);
    let ended = invoke_lent(valid, state, stack, host, &mut places, call);
    ended_with(ended, &places[..count])
}

/// Calls a function that has no results, as `invoke_on` does.
#[inline(always)]
pub fn invoke_bare<H: Host>(
    valid: &Valid,
    state: &mut State,
    stack: &mut CallStack,
    host: &mut H,
    call: &FunctionCall,
) -> BareEnded
    requires store { IsStoreOf valid.now.contents state.old }
    requires names { Names valid.now.contents (H.types host.old) }
    requires typed { TakesArguments valid.now.contents call.now.function call.now.args.now }
    requires bare { HasNoResults valid.now.contents call.now.function }
    requires depth { (1 ≤ call.now.depth) × (call.now.depth ≤ MAX_DEPTH) }
    ensures runs { Leads H.moves (calling valid.now.contents call.now.function call.now.args.now call.now.fuel call.now.depth) (scene state.old host.old)
        (whole result) stack.new (scene state.new host.new) }
    ensures within { result.used ≤ call.now.fuel }
    ensures kept { IsStoreOf valid.now.contents state.new }
    ensures types { H.types host.new ≡ H.types host.old }
{
    invoke_lent(valid, state, stack, host, &mut [], call)
}

/// Calls a function as `invoke_on` does, and writes its results to the first of the places that are lent, at least as many as it has.
#[inline(always)]
pub fn invoke_lent<H: Host>(
    valid: &Valid,
    state: &mut State,
    stack: &mut CallStack,
    host: &mut H,
    places: &mut [Value],
    call: &FunctionCall,
) -> BareEnded
    requires store { IsStoreOf valid.now.contents state.old }
    requires names { Names valid.now.contents (H.types host.old) }
    requires typed { TakesArguments valid.now.contents call.now.function call.now.args.now }
    requires room { result_count valid.now.contents call.now.function ≤ length places.old }
    requires depth { (1 ≤ call.now.depth) × (call.now.depth ≤ MAX_DEPTH) }
    ensures runs { Leads H.moves (calling valid.now.contents call.now.function call.now.args.now call.now.fuel call.now.depth) (scene state.old host.old)
        (ended_in valid.now.contents call.now.function result places.new) stack.new (scene state.new host.new) }
    ensures within { result.used ≤ call.now.fuel }
    ensures results { ReturnsTyped valid.now.contents call.now.function (ended_in valid.now.contents call.now.function result places.new).ending }
    ensures kept { IsStoreOf valid.now.contents state.new }
    ensures types { H.types host.new ≡ H.types host.old }
{
    let contents = valid.contents();
    let CallStack {
        slots,
        frames,
        last,
    } = stack;
    if (call.function as usize) < contents.imports.len() {
        *last = None;
        return invoke_import(contents, state, host, places, call);
    }
    let code = ModuleCode {
        contents,
        tables: valid.tables(),
    };
    let callers = frames.as_mut_slice();
    let run = invoke_defined(&code, state, host, slots, callers, places, call);
    *last = run.last;
    run.ended
}
