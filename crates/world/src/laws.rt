//! Laws of the runs of a world. Their functions do nothing: each contract is the law.

ghost use Rattle.world.specs.Guests.{EachRunCalls};
ghost use Rattle.world.specs.Histories.{IsHistory};
ghost use Rattle.world.specs.Laws.{AfterOnceInLog, IsAfterOwnInRun, IsAfterLastInRun, IsOneWay, IsCancelledOrBegun, RunsJoin};

use desk::Desk;

/// In every run of a world the guest of each loop makes some calls, and each loop has a history of what its owner did with
/// it, which the log shows. So each loop and request have at most one after-work callback. It is given what one thread computes from the request's own
/// order, as the log's line of its job's end says, or, where a cancel was answered 0, only its
/// cancellation; and from then on none is answered 0.
pub fn after_once()
    ensures calls { EachRunCalls }
    ensures history { IsHistory }
    ensures once { AfterOnceInLog }
    ensures own { IsAfterOwnInRun }
    ensures last { IsAfterLastInRun }
{
    phases::laws::after_once::<Desk>();
}

/// In every run of a world, of loops whose numbers are their places, each job goes its way at most once and in order:
/// it is posted, taken, begun or dropped, and where it was begun finished and collected. Where a cancel of its request
/// was answered 0, it is not begun, before or after the cancel.
pub fn one_way()
    ensures way { IsOneWay }
    ensures cancelled { IsCancelledOrBegun }
{
    phases::laws::asked_once::<Desk>();
}

/// A run of some steps, and a run of more from the world in which it ended, are one run of them all. So a world that
/// stopped with a fault and went on has one run after it.
pub fn runs_join()
    ensures { RunsJoin }
{}
