// Calls of small modules from outside, with the endings and the fuel that they must have.

ghost use Rattle.std.specs.Prelude.{◌≤◌};
ghost use Rattle.limits.specs.declared.TheConstants.{MAX_DEPTH};

use crate::modules::with_body;
use crate::rows::{RowTeller, check_rows, check_told_of};
use events::ended::{Ended, Ending};
use instance::memory::Memory;
use instance::state::Instance;
use interp::conditions::takes_arguments;
use interp::host::{Args, Host};
use interp::invoke::invoke;
use std::alloc::{AllocError, Global};
use std::process::Abort;
use std::test::Fail;
use syntax::types::Value;
use test_fixtures::{bytes_of, module_of, valid_of};
use valid::Valid;

/// One function, from nothing to an i32.
const TO_I32: &str = "0105016000017f 03020100";

/// Bodies of that function, and how a call of it ends.
const BODIES: &str = "
    # an `if` takes its second branch at 0, and else its first
    4100 047f 4101 05 4102 0b 0b = return 2 used 3
    4101 047f 4101 05 4102 0b 0b = return 1 used 3
    # a br_table takes its default past the end of its list
    0240 0240 4105 0e010001 0b 410a 0f 0b 410b 0b = return 11 used 5
    0240 0240 4100 0e010001 0b 410a 0f 0b 410b 0b = return 10 used 6
    # a return takes the topmost operand, and a branch drops the operands between
    4101 4107 0f 0b = return 7 used 3
    027f 4103 4104 0c00 0b 0b = return 4 used 4
    # and what stood under the block stays, with nothing over it but what the branch keeps
    4101 027f 4102 4103 0c00 0b 6a 0b = return 4 used 6
    027f 4101 0240 4102 0240 4103 4109 0c02 0b 1a 0b 0b 0b = return 9 used 8
    # sign extensions, and an i32 that is widened
    418001 c0 0b = return -128 used 2
    41808002 c1 0b = return -32768 used 2
    428080808008 c4 423f 88 a7 0b = return 1 used 5
    427f a7 ad 4220 88 a7 0b = return 0 used 6
    427f a7 ac 4220 88 a7 0b = return -1 used 6
    # traps
    00 0b = trap 1 used 1
    4101 4100 6d 0b = trap 2 used 3
    # 256 operands, and 256 blocks in one another
    4107 255*4100 255*1a 0b = return 7 used 511
    256*0240 256*0b 4107 0b = return 7 used 257
";

/// Bodies with more branches than 16 bits number, with branches among more operations than that, with more numbers of 64 bits
/// than 4,096, with as many labels as a br_table may have, and with more of two.
const BODIES_PAST_16_BITS: &str = "
    0240 65535*41000d00 0b 4107 0b = return 7 used 131072
    0240 65536*41000d00 0b 4107 0b = return 7 used 131074
    0240 70000*01 41010d00 0b 4107 0b = return 7 used 70004
    0240 70000*01 41000e010000 0b 4107 0b = return 7 used 70004
    5000*428080808080011a 4107 0b = return 7 used 10001
    0240 0240 41ff1f0e8020 4095*01 00 01 0b 41070f 0b 4108 0b = return 7 used 6
    0240 0240 4180200e8020 4096*01 00 0b 41070f 0b 4108 0b = return 7 used 6
    0240 41000e8020 4097*00 0b 0240 41000e010000 0b 4107 0b = return 7 used 7
";

/// One function, from nothing to two i32.
const TO_TWO: &str = "010601600002 7f7f 03020100";

/// One function, from nothing to an i32, with two more types: from nothing to two, and from an i32 to an i32.
const THREE: &str = "010f 03 6000017f 6000027f7f 60017f017f 03020100";

/// A block that leaves two operands, and an `if` with a parameter.
const BLOCKS: &str = "
    0201 4103 4104 0b 6b 0b = return -1 used 4
    4107 4100 0402 0b 0b = return 7 used 3
";

/// A host of one import, from nothing to nothing, that does nothing.
#[derive(Drop)]
struct Idle;

impl Host for Idle {
    ghost use Rattle.std.specs.Prelude.{◌≡◌, [], ◌∷◌};

    ghost types = { λ _. record { params = []; results = [] } ∷ [] };

    ghost moves = { λ old _ new. new ≡ old };

    ghost copied = { λ _. 0 };

    fn copied(&self) -> u64 {
        0
    }

    fn call(&mut self, _import: u32, _args: &Args, _memory: &mut Memory) -> Option<Value> {
        None
    }
}

/// A call of function 0 of a module that imports nothing, without arguments.
fn call(alloc: Global, valid: &Valid, fuel: u64, depth: u32) -> Result<Ended, Fail>
    requires { (1 ≤ depth) × (depth ≤ MAX_DEPTH) }
{
    if valid.contents().imports.len() != 0 || !takes_arguments(valid, 0, &[]) {
        return Err(Fail::from("function 0 can't be called so"));
    }
    let mut instance = Instance::new(alloc, valid)?;
    let ended = invoke(valid, &mut instance, &mut Idle, 0, &[], fuel, depth);
    drop(instance);
    Ok(ended)
}

fn tell_values(text: &mut String, values: &[Value]) -> Result<(), AllocError> {
    for value in values {
        match value {
            Value::I32(number) => write!(text, " {}", number.cast_signed())?,
            Value::I64(number) => write!(text, " {}", number.cast_signed())?,
        }
    }
    Ok(())
}

fn tell_return(text: &mut String, values: &[Value]) -> Result<(), AllocError> {
    text.push_str("return")?;
    tell_values(text, values)
}

fn tell_ending(text: &mut String, ending: &Ending) -> Result<(), AllocError> {
    match ending {
        Ending::Return(values) => tell_return(text, values.as_slice()),
        Ending::Trap(trap) => write!(text, "trap {}", trap.code()),
        Ending::Depth => text.push_str("depth"),
        Ending::Spent => text.push_str("spent"),
    }
}

fn tell(text: &mut String, ended: &Ended) -> Result<(), AllocError> {
    tell_ending(text, &ended.ending)?;
    write!(text, " used {}", ended.used)
}

fn told(alloc: Global, ended: &Ended) -> Result<String, AllocError> {
    let mut text = String::new(alloc);
    tell(&mut text, ended)?;
    Ok(text)
}

fn ended_of(alloc: Global, bytes: Vec<u8>, fuel: u64, depth: u32) -> Result<Ended, Fail>
    requires { (1 ≤ depth) × (depth ≤ 128) }
{
    let valid = valid_of(alloc, bytes)?;
    let ended = call(alloc, &valid, fuel, depth);
    drop(valid);
    ended
}

/// How a call of function 0 of this module ends.
fn end_of(alloc: Global, bytes: Vec<u8>, fuel: u64, depth: u32) -> Result<String, Fail>
    requires { (1 ≤ depth) × (depth ≤ MAX_DEPTH) }
{
    let ended = ended_of(alloc, bytes, fuel, depth)?;
    let told = told(alloc, &ended);
    drop(ended);
    Ok(told?)
}

/// Tells of a body, which comes after these sections, how a call of it ends.
#[derive(Drop)]
struct WithBody(&'static str);

impl RowTeller for WithBody {
    fn tell(&self, alloc: Global, body: &str) -> Result<String, Fail> {
        end_of(alloc, with_body(alloc, self.0, body)?, 1_000_000, 8)
    }
}

/// Sections, and rows of bodies that come after them.
const ROWS: [(&str, &str); 3] = [
    (TO_I32, BODIES),
    (TO_TWO, "4107 4108 0b = return 7 8 used 2"),
    (THREE, BLOCKS),
];

#[test]
fn bodies_end_as_they_must(rt: HostRuntime) -> Result<(), Fail> {
    for &(sections, rows) in &ROWS {
        check_rows(&rt, rt.alloc(), rows, &WithBody(sections))?;
    }
    Ok(())
}

#[test]
fn bodies_past_16_bits_run(rt: HostRuntime) -> Result<(), Fail> {
    check_rows(&rt, rt.alloc(), BODIES_PAST_16_BITS, &WithBody(TO_I32))
}

/// Modules at a limit, each a function 0 from nothing, and how a call of it ends.
const AT_LIMITS: &str = "
    # 1,048,576 bytes
    0105016000017f 03020100 00e1ff3f 1048545*00 0a0601040041070b = return 7 used 1
    # 1,024 types, of which a function and a block have the last
    018220 8008 1024*6000017f 030301ff07 0a0a010800 02ff0741070b 0b = return 7 used 2
    # 4,096 functions, of which the first calls the last
    0105016000017f 038220 8020 4096*00 0a83a001 8020 050010ff1f0b 4095*040041070b = return 7 used 2
    # 256 globals
    0105016000017f 03020100 06820a 8002 255*7f0041000b 7f0041070b 0a0701050023ff010b = return 7 used 1
    # 256 parameters
    018a02 02 6000017f 608002 256*7f 017f 0303020001 0a8d04 02 840400 255*4100 41071001 0b 050020ff010b = return 7 used 258
    # a `br_table` to a loop of 256 parameters, behind a branch out of it
    018902 02 6000017f 608002 256*7f 00 03020100 0a9504 01 9204 00 0240 256*4107 0301 0c01 4100 0e010000 0b 0b 4107 0b = return 7 used 260
    # 16 results
    01140160 0010 16*7f 03020100 0a24012200 16*4107 0b = return 7 7 7 7 7 7 7 7 7 7 7 7 7 7 7 7 used 16
    # 256 locals, and 255 beside a parameter
    0105016000017f 03020100 0a0f010d0180027f 410721ff0120ff01 0b = return 7 used 3
    010a02 6000017f 60017f017f 0303020001 0a16020600 41071001 0b 0d01ff017f 200021ff0120ff01 0b = return 7 used 5
    # 4,096 elements, of which the last is called, and one more isn't there
    0105016000017f 0303020000 04050170008020 0908010041ff1f0b0101 0a0f020800 41ff1f110000 0b 040041070b = return 7 used 3
    0105016000017f 0303020000 04050170008020 0908010041ff1f0b0101 0a0f020800 418020110000 0b 040041070b = trap 5 used 2
    # 64 pages, whose last byte is written and read; they can't grow
    0105016000017f 03020100 0503010040 0a1601140041ffffff0141073a000041ffffff012d00000b = return 7 used 5
    0105016000017f 03020100 0503010040 0a0801060041014000 0b = return -1 used 2
    # a declared maximum of 65,536 pages, of which 64 can be had
    0105016000017f 03020100 0506010100808004 0a0901070041c00040000b = return 0 used 2
    0105016000017f 03020100 0506010100808004 0a0901070041c10040000b = return -1 used 2
";

/// Tells of the sections of a module how a call of its function 0 ends.
#[derive(Drop)]
struct End;

impl RowTeller for End {
    fn tell(&self, alloc: Global, sections: &str) -> Result<String, Fail> {
        end_with(alloc, sections, 1_000_000, 8)
    }
}

#[test]
fn modules_at_the_limits_run(rt: HostRuntime) -> Result<(), Fail> {
    check_rows(&rt, rt.alloc(), AT_LIMITS, &End)
}

/// Appends 1,024 exports of function 0, each under a name of two bytes.
fn push_exports(bytes: &mut Vec<u8>) -> Result<(), AllocError> {
    for number in 0..1024_usize {
        let first = (number / 32 % 32 + 64) as u8;
        let second = (number % 32 + 64) as u8;
        bytes.extend_from_slice(&[2, first, second, 0, 0])?;
    }
    Ok(())
}

/// A module of 1,024 exports.
fn exporting_most(alloc: Global) -> Result<Vec<u8>, Fail> {
    let mut bytes = module_of(alloc, "0105016000017f 03020100 078228 8008")?;
    push_exports(&mut bytes)?;
    let code = bytes_of(alloc, "0a0601040041070b")?;
    bytes.extend_from_slice(code.as_slice())?;
    Ok(bytes)
}

#[test]
fn a_module_of_1024_exports_runs(rt: HostRuntime) -> Result<(), Fail> {
    let end = end_of(rt.alloc(), exporting_most(rt.alloc())?, 1, 8)?;
    check_told_of(&rt, end.as_str(), "return 7 used 1", "1,024 exports");
    Ok(())
}

/// A module whose function calls itself.
const CALLS_ITSELF: &str = "010401600000 03020100 0a0601040010000b";

/// How a call of function 0 of a module with these sections ends.
fn end_with(alloc: Global, sections: &str, fuel: u64, depth: u32) -> Result<String, Fail>
    requires { (1 ≤ depth) × (depth ≤ 128) }
{
    end_of(alloc, module_of(alloc, sections)?, fuel, depth)
}

fn check_end(
    rt: &impl Abort,
    alloc: Global,
    sections: &str,
    fuel: u64,
    depth: u32,
    wanted: &str,
) -> Result<(), Fail>
    requires { (1 ≤ depth) × (depth ≤ MAX_DEPTH) }
{
    let end = end_with(alloc, sections, fuel, depth)?;
    check_told_of(rt, end.as_str(), wanted, sections);
    Ok(())
}

#[test]
fn calls_itself_up_to_the_limit(rt: HostRuntime) -> Result<(), Fail> {
    let alloc = rt.alloc();
    check_end(&rt, alloc, CALLS_ITSELF, 127, 128, "spent used 127")?;
    check_end(&rt, alloc, CALLS_ITSELF, 128, 128, "depth used 128")?;
    check_end(&rt, alloc, CALLS_ITSELF, 1000, 1, "depth used 1")?;
    check_end(&rt, alloc, CALLS_ITSELF, 0, 128, "spent used 0")
}

/// A module whose function has 256 locals, and calls itself over 256 operands.
const FILLS_THE_STACK: &str =
    "010401600000 03020100 0a8a06 01 87060180027f 256*4100 1000 256*1a 0b";

#[test]
fn all_slots_of_the_deepest_call_are_there(rt: HostRuntime) -> Result<(), Fail> {
    let wanted = "depth used 32896";
    check_end(&rt, rt.alloc(), FILLS_THE_STACK, 1_000_000, 128, wanted)
}

/// A module whose function counts 5 down to 0 in the parameter of a loop.
const COUNTS_DOWN: &str = "010f 03 6000017f 6000027f7f 60017f017f 03020100
    0a140112 01017f 4105 0302 41016b 2200 2000 0d00 0b 0b";

/// Counts down over 100, to which it adds what is left.
const COUNTS_OVER: &str = "010f 03 6000017f 6000027f7f 60017f017f 03020100
    0a180116 01017f 41e400 4105 0302 41016b 2200 2000 0d00 0b 6a 0b";

#[test]
fn a_loop_counts_down_with_its_parameter(rt: HostRuntime) -> Result<(), Fail> {
    check_end(&rt, rt.alloc(), COUNTS_DOWN, 31, 8, "return 0 used 31")?;
    check_end(&rt, rt.alloc(), COUNTS_DOWN, 30, 8, "spent used 30")?;
    check_end(&rt, rt.alloc(), COUNTS_OVER, 1000, 8, "return 100 used 33")
}
