// A scene is what a loop and its workers do in a hall, and what is seen of it.

ghost use Rattle.std.specs.Prelude.{◌≡◌, ◌≤◌};
ghost use Rattle.std.specs.Thread.{IsSync};
ghost use Rattle.limits.specs.declared.TheConstants.{MAX_WORKERS};

use crate::hall::{Hall, LoopSide, Spares, WorkerSide};
use crate::jobs::Jobs;
use std::alloc::{AllocError, Global};
use std::sync::Wait;
use std::test::Fail;
use std::thread;
use std::thread::Threads;

/// What is played in a hall: the loop has its side, and the workers' sides come from the spares.
pub trait Scene {
    type Seen: Copy;

    fn play<R: Threads + Wait + Sync>(
        &self,
        rt: &R,
        jobs: &Jobs,
        side: &mut LoopSide<'_>,
        spares: &mut Spares<'_>,
    ) -> Result<Self::Seen, Fail>
        requires { IsSync R.row };
}

fn in_hall<S: Scene, R: Threads + Wait + Sync>(
    rt: &R,
    scene: &S,
    jobs: &Jobs,
    workers: u32,
    count: u32,
) -> Result<S::Seen, Fail>
    requires { workers ≤ MAX_WORKERS }
{
    let made = jobs.in_turn(count)?;
    let (hall, gear) = Hall::new(jobs.alloc, workers)?;
    let (mut side, mut spares) = hall.settle(made, gear);
    let seen = scene.play(rt, jobs, &mut side, &mut spares);
    drop((side, spares));
    drop(hall);
    seen
}

/// With so many workers at most, and so many jobs. What is seen, and how many owners the counter of calls has once the
/// hall is gone.
pub fn played<S: Scene, R: Threads + Wait + Sync>(
    rt: &R,
    alloc: Global,
    scene: &S,
    workers: u32,
    count: u32,
) -> Result<(S::Seen, usize), Fail>
    requires { workers ≤ MAX_WORKERS }
{
    let jobs = Jobs::new(alloc)?;
    let seen = in_hall(rt, scene, &jobs, workers, count)?;
    Ok((seen, jobs.owners()))
}

/// What a loop sees while its workers work.
pub trait Onlooker {
    type Seen: Copy;

    fn watch<R: Wait>(&self, rt: &R, side: &mut LoopSide<'_>) -> Self::Seen;
}

/// Starts a worker that holds this request.
fn start<'s, R: Wait + Sync, E>(
    scope: &thread::Scope<'s, E>,
    rt: &'s R,
    worker: WorkerSide<'s>,
    held: u32,
) -> Result<(), AllocError>
    requires { IsSync R.row }
{
    scope.spawn(
        move ||
            requires { IsSync R.row }
        { worker.work_until_closed(rt, held) },
    )?;
    Ok(())
}

fn start_all<'a: 's, 's, R: Wait + Sync, E>(
    scope: &thread::Scope<'s, E>,
    rt: &'s R,
    spares: &mut Spares<'a>,
    workers: u32,
    held: u32,
) -> Result<(), AllocError>
    requires { IsSync R.row }
{
    for _ in 0..workers {
        start(scope, rt, spares.worker()?, held)?;
    }
    Ok(())
}

/// So many workers work in a thread each and hold this request, until what is to be seen was seen and the board is closed.
pub fn at_work<W: Onlooker, R: Threads + Wait + Sync>(
    rt: &R,
    watch: &W,
    side: &mut LoopSide<'_>,
    spares: &mut Spares<'_>,
    workers: u32,
    held: u32,
) -> Result<W::Seen, AllocError> {
    thread::scope(
        thread::scope_env(),
        rt,
        move |scope| -> Result<W::Seen, AllocError>
            requires { IsSync R.row }
        {
            if start_all(scope, rt, spares, workers, held).is_err() {
                side.close();
                return Err(AllocError);
            }
            let seen = watch.watch(rt, side);
            side.close();
            Ok(seen)
        },
    )
}
