//! Laws of loops in threads. Their functions do nothing: each contract is the law.

ghost use Rattle.phases.specs.Laws.{IsAfterOnce, IsAfterOwn, IsAfterLast};
ghost use Rattle.desk.specs.Laws.{IsAsAtDesk};
ghost use Rattle.serve.specs.AfterOnce.{IsServedAfterOnce, IsJointAfterOnce};
ghost use Rattle.serve.specs.AtDesk.{IsServedAtDesk};
ghost use Rattle.serve.specs.Histories.{thread_calls};

use pool::Seats;

/// In every history of a loop over its seats, and so in that of each loop that was served, whatever other threads do and
/// in whatever order, each request has at most one after-work callback. It is given what one thread computes from the
/// very order that the guest asked for, or that there was no memory, or, where a cancel of it was answered 0, only its
/// cancellation; and from then on none is answered 0. So what `serve` answers of a loop is of a history of which this
/// holds; and where one account covers all threads, as that of `serve_joint` does, a callback that was not cancelled is
/// given what a worker of this run put to that very order.
pub fn after_once()
    ensures once { IsAfterOnce thread_calls }
    ensures own { IsAfterOwn thread_calls }
    ensures last { IsAfterLast thread_calls }
    ensures served { IsServedAfterOnce }
    ensures joint { IsJointAfterOnce }
{
    phases::laws::after_once::<Seats<'_>>();
}

/// Loops in threads are as at a desk. In every history of a loop over its seats each event is one over a desk too, the same
/// callback with the same arguments, as workers start requests there and others send between the loop's calls. So what
/// `serve` answers of a loop is what that loop has done at a desk, where all stands in one thread.
pub fn as_at_desk()
    ensures each { IsAsAtDesk thread_calls }
    ensures served { IsServedAtDesk }
{
    desk::laws::as_at_desk::<Seats<'_>>();
}
