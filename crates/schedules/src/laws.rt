//! Laws of what loops and workers do in threads. Their functions do nothing: each contract is the law.

ghost use Rattle.schedules.specs.Laws.{AfterOnceInSchedule, IsAsInWorld, IsOfThreads, IsSplit};
ghost use Rattle.schedules.specs.Served.{IsInThreads};
ghost use Rattle.schedules.specs.Together.{AreOneRun};

use phases::Shared;

/// A step of a loop over its desk is one that makes some accesses, which lead from that desk to the next; and each such
/// is a step over the desk. So splitting a step into its accesses loses none, and adds none where nothing comes between.
pub fn step_by_accesses()
    ensures { IsSplit }
{}

/// Whatever loops and workers in threads do, one atomic step after another, in which a loop's step is as many as it makes
/// accesses to what it shares, and where the loops' numbers are their places: there is a run of the world, with a worker for
/// each job that was posted, in which the log of each loop is the same, line by line, and at whose end each loop that is
/// between two of its steps stands the same.
pub fn as_in_world()
    ensures { IsAsInWorld }
{
    world::laws::runs_join();
}

/// So what a law says of the log of a loop in every run of the world holds in threads: each request has at most one
/// after-work callback.
pub fn after_once()
    ensures { AfterOnceInSchedule }
{
    as_in_world();
    world::laws::after_once();
}

/// Conversely, each run of the world in which no list of jobs was full is a run of threads, with as many workers.
pub fn of_threads()
    ensures { IsOfThreads }
{
    world::laws::after_once();
    world::laws::runs_join();
}

/// What loops did, each over an object of its own to which nobody else sends, is one run of threads, and so one of a world, in
/// which the log of each loop is the lines of what that loop did, and which leaves each loop as it stands, where what a loop
/// has found started, and each reply that it has taken, stands behind the hand-out of its order.
pub fn one_run<B: Shared>()
    ensures { AreOneRun B.calls }
{
    as_in_world();
    of_threads();
    world::laws::runs_join();
}

/// So where `serve` gives one account of all its threads, its very histories are one run of threads, and so one of a world, whose
/// workers begin just what the workers of `serve` have started. A loop takes a reply to such a request alone.
pub fn of_serve()
    ensures { IsInThreads }
{
    as_in_world();
    of_threads();
    world::laws::runs_join();
}
