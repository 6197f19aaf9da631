//! Laws of what the owner of a loop does with it. Their functions do nothing: each contract is the law.

ghost use Rattle.phases.specs.Kinds.{AreKinds};
ghost use Rattle.phases.specs.Laws.{IsAfterOnce, IsAfterOwn, IsAfterLast, IsAskedOnce, IsHandedOnce, IsHandedOwn};
ghost use Rattle.phases.specs.Slices.{StepsMakeHeadway};

use crate::shared::Shared;

/// In every history of a loop, whatever it shares and whatever others do to that, each request has at most one
/// after-work callback. It is given what one thread computes from the very order that the guest asked for, or the loop's
/// owner, or, where a cancel of it was answered 0, only its cancellation; and from then on none is answered 0.
pub fn after_once<B: Shared>()
    ensures once { IsAfterOnce B.calls }
    ensures own { IsAfterOwn B.calls }
    ensures last { IsAfterLast B.calls }
{}

/// In every history of a loop each number of a request is given once, so that a number names one order; and that is
/// handed out once at most, as it was asked for. Numbers are 1 to 2,147,483,647.
pub fn asked_once<B: Shared>()
    ensures asked { IsAskedOnce B.calls }
    ensures handed { IsHandedOnce B.calls }
    ensures own { IsHandedOwn B.calls }
{}

/// A slice that leaves a step in progress uses at least one in 1,025 of its units, however many bytes the callback copies.
pub fn slices_make_headway<B: Shared>()
    ensures { StepsMakeHeadway B.calls }
{}

/// The kinds that an after-work callback is given are those of docs/UV.md.
pub fn kinds_are_numbers()
    ensures { AreKinds }
{}
