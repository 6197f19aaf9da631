// A call from outside begins.

ghost use Rattle.std.specs.Prelude.{◌≡◌, ◌≤◌, ◌+◌, ◌++◌, length, drop, replicate};
ghost use Rattle.interp.specs.Slots.Holding.{AreSmall, erased};
ghost use Rattle.interp.specs.Slots.CallsBegun.{CanOpen, CallOpened};

use crate::reading::number_of;
use engine::{At, zero};
use instance::stack::Slots;
use limits::MAX_HEIGHT;
use syntax::contents::Contents;
use syntax::types::Value;

/// How many slots there are at least from the first call on. With the one at the bottom, and with what malloc keeps before a block,
/// they lie in one page of 4 KiB.
const FIRST_SLOTS: usize = 508;

/// Lays arguments in the lowest slots.
fn lay_arguments(slots: &mut [u64], args: &[Value])
    requires { length args.now ≤ length slots.old }
    ensures laid { slots.new ≡ erased args.now ++ drop (length args.now) slots.old }
    ensures small { AreSmall args.now }
{
    for (index, arg) in args.iter().enumerate() {
        slots[index] = number_of(*arg);
    }
}

/// Lays the locals of a call in the lowest slots: its arguments, and so many zeros.
fn lay_locals(slots: &mut [u64], args: &[Value], zeros: usize)
    requires { length args.now + zeros ≤ length slots.old }
    ensures laid { slots.new ≡ (erased args.now ++ replicate zeros 0) ++ drop (length args.now + zeros) slots.old }
    ensures small { AreSmall args.now }
{
    lay_arguments(slots, args);
    zero(slots, args.len(), zeros);
}

/// Lays the locals above the slot at the bottom.
fn lay_above(slots: &mut [u64], args: &[Value], zeros: usize)
    requires bottom { 1 ≤ length slots.old }
    requires room { length args.now + zeros ≤ length (drop 1 slots.old) }
    ensures laid { drop 1 slots.new ≡ (erased args.now ++ replicate zeros 0) ++ drop (length args.now + zeros) (drop 1 slots.old) }
    ensures small { AreSmall args.now }
{
    lay_locals(&mut slots[1..], args, zeros);
}

/// Lays the locals in the slots of all calls.
fn lay_on(slots: &mut Slots, args: &[Value], zeros: usize)
    requires { length args.now + zeros ≤ length slots.old }
    ensures laid { slots.new ≡ (erased args.now ++ replicate zeros 0) ++ drop (length args.now + zeros) slots.old }
    ensures room { length slots.new ≡ length slots.old }
    ensures small { AreSmall args.now }
{
    lay_above(slots.as_mut_slice(), args, zeros);
}

/// Lays the locals of a call from outside in the lowest slots, of which there are then enough for it, and returns where its run begins.
#[inline(always)]
pub fn open(contents: &Contents, slots: &mut Slots, function: u32, args: &[Value]) -> At
    requires { CanOpen contents.now function args.now }
    ensures opened { CallOpened contents.now function args.now result slots.new }
    ensures small { AreSmall args.now }
{
    let index = function as usize - contents.imports.len();
    let Some(func) = contents.functions.get(index) else {
        unreachable!()
    };
    let zeros = func.locals.len();
    let sp = args.len() + zeros;
    let room = FIRST_SLOTS.max(sp + MAX_HEIGHT);
    if slots.len() < room {
        slots.lengthen(room);
    }
    lay_on(slots, args, zeros);
    At {
        function: index,
        pc: 0,
        sp,
        base: 0,
        depth: 0,
    }
}
