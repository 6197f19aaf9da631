// All loops and workers, in one thread.

ghost use Rattle.std.specs.Prelude.{◌≡◌, ◌++◌, ◌∷◌, [], ◌≤◌, ◌<◌, true, false, All, IfOk, IfErr, IfNone, IfSome, OnOk, OnErr, length, map, replicate, take};
ghost use Rattle.limits.specs.declared.TheConstants.{MAX_LOOPS, MAX_WORKERS};
ghost use Rattle.world.specs.Making.{setting_from, settings_from, answers_of, HasDepth, Faults, MayFault, NamesNothing, Stops};
ghost use Rattle.world.specs.Stopping.{HasUnfailed, StopsIn};
ghost use Rattle.world.specs.Undone.{IsUndone};
ghost use Rattle.world.specs.World.{opening_world, opening_loop, WorldStep, WorldRun, entry_told, job_of, TellsEnd, StepsLoop, PostsJob, WithWorker, WorkerTakesJob, StartsJob};
ghost use Rattle.world.specs.World.{FinishesJob, CollectsReplies, SendsTo, CancelsRequest, ClocksAt};
ghost use Rattle.order.specs.Orders.{order_of, end_of};

use crate::config::{Config, LoopConfig};
use crate::fault::WorldFault;
use crate::undone::Undone;
use crate::worker::Worker;
use desk::Desk;
use events::did::StepDid;
use instance::stack::Stop;
use limits::{MAX_ASYNCS, MAX_EMITS, MAX_JOBS};
use order::{Order, Outcome, Reply, Trail};
use phases::{Accepted, LoopCore};
use std::alloc::{AllocError, Global};
use std::collections::VecDeque;
use std::marker::Model;
use std::mem;
use std::sync::Arc;
use syntax::items::Items;
use world_log::{
    CollectOutcome, FinishOutcome, JobEnd, JobId, Log, LogEntry, PostOutcome, StartOutcome, Step,
};

/// How many jobs are kept at most whose work did not return.
const MAX_UNDONE: usize = 16;

/// Some loops and workers, which take turns in one thread, step by step. Contracts see the loops, the jobs that no
/// worker took, what each worker has, and the replies that no loop was offered.
#[derive(Drop)]
pub struct World {
    alloc: Global,
    loops: Vec<LoopCore<Desk>>,
    jobs: VecDeque<Order>,
    workers: Vec<Worker>,
    replies: Vec<VecDeque<Reply>>,
    undone: Vec<Undone>,
}

impl Model for World {
    ghost use Rattle.std.specs.Prelude.{length, map};
    ghost use Rattle.std.specs.VecDeque.{deque_capacity};
    ghost use Rattle.std.specs.Coded.{codes};
    ghost use Rattle.syntax.specs.Loaded.{loaded_coded};
    ghost use Rattle.handles.specs.Inner.Codes.{table_code};
    ghost use Rattle.phases.specs.Inner.Codes.{roster_code, requests_code};
    ghost use Rattle.order.specs.Orders.{order_of};
    ghost use Rattle.world.specs.World.{World as Value_of};
    ghost use Rattle.world.specs.Making.{answers_of, worker_of, WorldIsKept};

    ghost Value = { Value_of };

    ghost coded = { Prim.hlevel (codes, loaded_coded, table_code, roster_code, requests_code) };

    ghost view = { λ a. record { loops = a.loops.items; jobs = map order_of a.jobs.items; workers = map worker_of a.workers.items; replies = map (λ d. answers_of d.items) a.replies.items } };

    ghost invariant = { λ a. WorldIsKept a.loops.items a.jobs.items a.workers.items (length a.replies.items) (deque_capacity a.jobs) };
}

/// What a log has of a loop's step, of which these are the values that its callback emitted.
pub fn told(loop_no: u32, did: StepDid, emits: Items<u64>) -> LogEntry
    ensures { result ≡ entry_told loop_no did emits }
{
    match did {
        StepDid::Entered { phase, now } => LogEntry::Entered {
            loop_no,
            phase,
            now,
        },
        StepDid::Ran {
            kind,
            number,
            ended,
        } => LogEntry::Ran {
            loop_no,
            kind,
            number,
            ended,
            emits,
        },
        StepDid::Skipped { kind, number } => LogEntry::Skipped {
            loop_no,
            kind,
            number,
        },
        StepDid::Over => LogEntry::Over { loop_no },
        StepDid::Failed => LogEntry::Failed { loop_no },
    }
}

fn job_of(order: &Order) -> JobId
    ensures { result ≡ job_of (order_of order.now) }
{
    JobId {
        loop_no: order.loop_no,
        request: order.request,
    }
}

/// How an outcome is logged.
fn ending_of(outcome: &Outcome) -> JobEnd
    ensures { TellsEnd result (end_of outcome.now) }
{
    match outcome {
        Outcome::Done(value, _) => JobEnd::Done(*value),
        Outcome::Trap(trap) => JobEnd::Trap(*trap),
        Outcome::Depth => JobEnd::Depth,
        Outcome::Spent => JobEnd::Spent,
        Outcome::NoMemory(_) => JobEnd::NoMemory,
    }
}

fn none_undone(alloc: Global) -> Result<Vec<Undone>, AllocError> {
    Vec::with_capacity(alloc, MAX_UNDONE)
}

/// Keeps a job whose work did not return, while there is room.
fn keep_undone(
    undone: &mut Vec<Undone>,
    job: JobId,
    ending: JobEnd,
    used: u64,
    trail: Option<Trail>,
)
    requires { IfSome trail (λ t. ∥ IsUndone job ending used t ∥₁) }
{
    let Some(trail) = trail else {
        return;
    };
    if undone.len() < undone.capacity() {
        undone.push_reserved(Undone {
            job,
            ending,
            used,
            trail,
        });
    }
}

/// The loops of a world as they open, each under its place as its number.
fn opening_loops(alloc: Global, configs: &[LoopConfig]) -> Result<Vec<LoopCore<Desk>>, AllocError>
    requires few { length configs.now ≤ MAX_LOOPS }
    requires depths { All HasDepth configs.now }
    ensures { IfOk result (λ loops. loops.items ≡ map opening_loop (settings_from 0 configs.now)) }
{
    let mut loops = Vec::new(alloc);
    for (place, config) in configs.iter().enumerate() {
        loops.push(opening_loop(alloc, config, place as u32)?)?;
    }
    Ok(loops)
}

fn opening_loop(
    alloc: Global,
    config: &LoopConfig,
    loop_no: u32,
) -> Result<LoopCore<Desk>, AllocError>
    requires { HasDepth config.now }
    ensures { IfOk result (λ core. core ≡ opening_loop (setting_from loop_no config.now)) }
{
    let desk = Desk::new(alloc, loop_no)?;
    let linked = Arc::try_clone(&config.linked)?;
    let settings = config.settings;
    LoopCore::new(
        alloc,
        linked,
        desk,
        loop_no,
        settings.fuel,
        settings.work_fuel,
        settings.depth,
    )
}

/// An empty list of replies for each loop.
fn no_replies(alloc: Global, loops: usize) -> Result<Vec<VecDeque<Reply>>, AllocError>
    ensures { IfOk result (λ lists. map (λ d. answers_of d.items) lists.items ≡ replicate loops []) }
{
    let mut lists = Vec::new(alloc);
    for _ in 0..loops {
        lists.push(VecDeque::new(alloc))?;
    }
    Ok(lists)
}

fn idle_workers(alloc: Global, count: u32) -> Result<Vec<Worker>, AllocError>
    ensures { IfOk result (λ workers. workers.items ≡ replicate count Worker.Idle) }
{
    let mut workers = Vec::new(alloc);
    for _ in 0..count {
        workers.push(Worker::Idle)?;
    }
    Ok(workers)
}

impl World {
    /// A world whose loops have done nothing, with workers that have nothing. There are 1 to `MAX_LOOPS` loops, each
    /// numbered by its place, and at most `MAX_WORKERS` workers; calls may stand 1 to `MAX_DEPTH` deep. The only fault is
    /// `Memory`, where `AllocError` came of memory or of `LoopCore::new`.
    pub fn new(alloc: Global, config: Config) -> Result<World, WorldFault>
        requires loops { (1 ≤ length config.loops.items) × (length config.loops.items ≤ MAX_LOOPS) }
        requires workers { config.workers ≤ MAX_WORKERS }
        requires depths { All HasDepth config.loops.items }
        ensures opening { IfOk result (λ world. world ≡ opening_world (settings_from 0 config.loops.items) config.workers) }
        ensures memory { IfErr result (λ fault. fault ≡ WorldFault.Memory) }
    {
        Ok(World {
            alloc,
            loops: opening_loops(alloc, config.loops.as_slice())?,
            jobs: VecDeque::with_capacity(alloc, MAX_JOBS)?,
            workers: idle_workers(alloc, config.workers)?,
            replies: no_replies(alloc, config.loops.len())?,
            undone: none_undone(alloc)?,
        })
    }

    /// Where the last callback of a loop stopped, unless it returned: at which operation, and within which calls.
    /// Of a loop that has failed, this stays.
    pub fn last_stop(&self, loop_no: u32) -> Option<Stop<'_>>
        ensures some { IfSome result (StopsIn self.now loop_no) }
        ensures none { IfNone result (HasUnfailed self.now loop_no) }
    {
        let Some(core) = self.loops.get(loop_no as usize) else {
            return None;
        };
        core.last_stop()
    }

    /// The jobs whose work did not return, in the order in which they were finished: the first 16.
    pub fn undone(&self) -> &[Undone]
        ensures { All (λ u. ∥ IsUndone u.job u.ending u.used u.trail ∥₁) result.now }
    {
        self.undone.as_slice()
    }

    /// Takes these steps one after another, and writes what each did after the log. It stops at a step that names a
    /// loop, a worker or an async that is not there, by `NoSuch`, and at one for which there is no memory, by `Memory`:
    /// world and log are then as the steps before it left them.
    pub fn run(&mut self, steps: &[Step], log: &mut Log) -> Result<(), WorldFault>
        ensures ran { OnOk result ((told : _) × (log.new.entries ≡ log.old.entries ++ told) × WorldRun self.old steps.now told self.new) }
        ensures stopped { IfErr result (λ fault. (told : _) × (log.new.entries ≡ log.old.entries ++ told) × Stops self.old steps.now fault told self.new) }
    {
        for step in steps {
            self.step(*step, log)?;
        }
        Ok(())
    }

    fn step(&mut self, step: Step, log: &mut Log) -> Result<(), WorldFault>
        ensures ran { OnOk result ((entry : _) × (log.new.entries ≡ log.old.entries ++ entry ∷ []) × WorldStep self.old step entry self.new) }
        ensures fault { IfErr result (λ fault. Faults self.old step fault) }
        ensures kept { OnErr result (self.new ≡ self.old) }
        ensures log { OnErr result (log.new.entries ≡ log.old.entries) }
    {
        if !self.has(step) {
            return Err(WorldFault::NoSuch);
        }
        log.reserve()?;
        let entry = self.take_step(step)?;
        log.push_reserved(entry);
        Ok(())
    }

    /// Whether all that the step names is there.
    fn has(&self, step: Step) -> bool
        ensures none { result ≡ false → NamesNothing self.now step }
        ensures there { result ≡ true → NamesNothing self.now step → ⊥ }
    {
        match step {
            Step::Loop(loop_no) => (loop_no as usize) < self.loops.len(),
            Step::Post(loop_no) => (loop_no as usize) < self.loops.len(),
            Step::Take(worker) => (worker as usize) < self.workers.len(),
            Step::Start(worker) => (worker as usize) < self.workers.len(),
            Step::Finish(worker) => (worker as usize) < self.workers.len(),
            Step::Collect(loop_no) => (loop_no as usize) < self.loops.len(),
            Step::Send(loop_no, async_no) => {
                (loop_no as usize) < self.loops.len() && (async_no as usize) < MAX_ASYNCS
            }
            Step::Cancel(loop_no, _) => (loop_no as usize) < self.loops.len(),
            Step::Clock(loop_no, _) => (loop_no as usize) < self.loops.len(),
        }
    }

    fn take_step(&mut self, step: Step) -> Result<LogEntry, WorldFault>
        ensures ran { IfOk result (λ entry. WorldStep self.old step entry self.new) }
        ensures fault { IfErr result (λ fault. MayFault self.old step fault) }
        ensures kept { OnErr result (self.new ≡ self.old) }
    {
        match step {
            Step::Loop(loop_no) => self.step_loop(loop_no),
            Step::Post(loop_no) => self.post(loop_no),
            Step::Take(worker) => self.take(worker),
            Step::Start(worker) => self.start(worker),
            Step::Finish(worker) => self.finish(worker),
            Step::Collect(loop_no) => self.collect(loop_no),
            Step::Send(loop_no, async_no) => self.send(loop_no, async_no),
            Step::Cancel(loop_no, request) => self.cancel(loop_no, request),
            Step::Clock(loop_no, ms) => self.clock(loop_no, ms),
        }
    }

    fn step_loop(&mut self, loop_no: u32) -> Result<LogEntry, WorldFault>
        ensures ran { IfOk result (λ entry. StepsLoop self.old loop_no entry self.new) }
        ensures fault { IfErr result (λ fault. MayFault self.old (Step.Loop loop_no) fault) }
        ensures kept { OnErr result (self.new ≡ self.old) }
    {
        let mut emits = Vec::with_capacity(self.alloc, MAX_EMITS)?;
        let Some(core) = self.loops.get_mut(loop_no as usize) else {
            return Err(WorldFault::NoSuch);
        };
        let did = core.step();
        let Ok(()) = emits.extend_from_slice(core.emits()) else {
            unreachable!();
        };
        Ok(told(loop_no, did, Items::from_vec(emits)))
    }

    fn post(&mut self, loop_no: u32) -> Result<LogEntry, WorldFault>
        ensures ran { IfOk result (λ entry. PostsJob self.old loop_no entry self.new) }
        ensures fault { IfErr result (λ fault. MayFault self.old (Step.Post loop_no) fault) }
        ensures kept { OnErr result (self.new ≡ self.old) }
    {
        let Some(core) = self.loops.get_mut(loop_no as usize) else {
            return Err(WorldFault::NoSuch);
        };
        if core.failed() {
            return Ok(LogEntry::Failed { loop_no });
        }
        if self.jobs.len() == MAX_JOBS {
            return Ok(LogEntry::Post {
                loop_no,
                outcome: PostOutcome::Full,
            });
        }
        let Some(order) = core.next_order() else {
            return Ok(LogEntry::Post {
                loop_no,
                outcome: PostOutcome::Nothing,
            });
        };
        let outcome = PostOutcome::Request(order.request);
        self.jobs.push_back_reserved(order);
        Ok(LogEntry::Post { loop_no, outcome })
    }

    fn take(&mut self, worker: u32) -> Result<LogEntry, WorldFault>
        ensures ran { IfOk result (λ entry. WorldStep self.old (Step.Take worker) entry self.new) }
        ensures fault { IfErr result (λ fault. MayFault self.old (Step.Take worker) fault) }
        ensures kept { OnErr result (self.new ≡ self.old) }
    {
        let Some(state) = self.workers.get_mut(worker as usize) else {
            return Err(WorldFault::NoSuch);
        };
        let Worker::Idle = state else {
            return Ok(LogEntry::Take { worker, job: None });
        };
        let Some(order) = self.jobs.pop_front() else {
            return Ok(LogEntry::Take { worker, job: None });
        };
        let job = Some(job_of(&order));
        *state = Worker::Taken(order);
        Ok(LogEntry::Take { worker, job })
    }

    fn start(&mut self, worker: u32) -> Result<LogEntry, WorldFault>
        ensures ran { IfOk result (λ entry. WorldStep self.old (Step.Start worker) entry self.new) }
        ensures fault { IfErr result (λ fault. MayFault self.old (Step.Start worker) fault) }
        ensures kept { OnErr result (self.new ≡ self.old) }
    {
        let Some(state) = self.workers.get_mut(worker as usize) else {
            return Err(WorldFault::NoSuch);
        };
        let Worker::Taken(order) = state else {
            return Ok(LogEntry::Start {
                worker,
                outcome: StartOutcome::Nothing,
            });
        };
        let job = job_of(order);
        let core = &mut self.loops[job.loop_no as usize];
        if !core.start(order.slot, order.request) {
            *state = Worker::Idle;
            return Ok(LogEntry::Start {
                worker,
                outcome: StartOutcome::Dropped(job),
            });
        }
        let Worker::Taken(order) = mem::replace(state, Worker::Idle) else {
            unreachable!();
        };
        *state = Worker::Started(order);
        Ok(LogEntry::Start {
            worker,
            outcome: StartOutcome::Begun(job),
        })
    }

    fn finish(&mut self, worker: u32) -> Result<LogEntry, WorldFault>
        ensures ran { IfOk result (λ entry. WorldStep self.old (Step.Finish worker) entry self.new) }
        ensures fault { IfErr result (λ fault. MayFault self.old (Step.Finish worker) fault) }
        ensures kept { OnErr result (self.new ≡ self.old) }
    {
        let Some(state) = self.workers.get_mut(worker as usize) else {
            return Err(WorldFault::NoSuch);
        };
        let Worker::Started(order) = state else {
            return Ok(LogEntry::Finish {
                worker,
                outcome: FinishOutcome::Nothing,
            });
        };
        let job = job_of(order);
        let replies = &mut self.replies[job.loop_no as usize];
        replies.reserve(1)?;
        let Worker::Started(order) = mem::replace(state, Worker::Idle) else {
            unreachable!();
        };
        let told = order.run_told(self.alloc);
        let ending = ending_of(&told.reply.outcome);
        keep_undone(&mut self.undone, job, ending, told.used, told.trail);
        replies.push_back_reserved(told.reply);
        Ok(LogEntry::Finish {
            worker,
            outcome: FinishOutcome::Ended(job, ending),
        })
    }

    fn collect(&mut self, loop_no: u32) -> Result<LogEntry, WorldFault>
        ensures ran { IfOk result (λ entry. CollectsReplies self.old loop_no entry self.new) }
        ensures fault { IfErr result (λ fault. MayFault self.old (Step.Collect loop_no) fault) }
        ensures kept { OnErr result (self.new ≡ self.old) }
    {
        let Some(core) = self.loops.get_mut(loop_no as usize) else {
            return Err(WorldFault::NoSuch);
        };
        if core.failed() {
            return Ok(LogEntry::Failed { loop_no });
        }
        let Some(reply) = self.replies[loop_no as usize].pop_front() else {
            return Ok(LogEntry::Collect {
                loop_no,
                outcome: CollectOutcome::Nothing,
            });
        };
        let request = reply.order.request;
        let outcome = match core.accept(reply) {
            Accepted::Accepted => CollectOutcome::Request(request),
            Accepted::Stranger(_) => CollectOutcome::Stranger,
        };
        Ok(LogEntry::Collect { loop_no, outcome })
    }

    fn send(&mut self, loop_no: u32, async_no: u32) -> Result<LogEntry, WorldFault>
        ensures ran { IfOk result (λ entry. SendsTo self.old loop_no async_no entry self.new) }
        ensures fault { IfErr result (λ fault. MayFault self.old (Step.Send loop_no async_no) fault) }
        ensures kept { OnErr result (self.new ≡ self.old) }
    {
        if async_no as usize >= MAX_ASYNCS {
            return Err(WorldFault::NoSuch);
        }
        let Some(core) = self.loops.get_mut(loop_no as usize) else {
            return Err(WorldFault::NoSuch);
        };
        let is_refused = !core.sent(async_no);
        Ok(LogEntry::Send {
            loop_no,
            async_no,
            is_refused,
        })
    }

    fn cancel(&mut self, loop_no: u32, request: u32) -> Result<LogEntry, WorldFault>
        ensures ran { IfOk result (λ entry. CancelsRequest self.old loop_no request entry self.new) }
        ensures fault { IfErr result (λ fault. MayFault self.old (Step.Cancel loop_no request) fault) }
        ensures kept { OnErr result (self.new ≡ self.old) }
    {
        let Some(core) = self.loops.get_mut(loop_no as usize) else {
            return Err(WorldFault::NoSuch);
        };
        if core.failed() {
            return Ok(LogEntry::Failed { loop_no });
        }
        let answer = core.cancel(request);
        Ok(LogEntry::Cancel {
            loop_no,
            request,
            answer,
        })
    }

    fn clock(&mut self, loop_no: u32, ms: u64) -> Result<LogEntry, WorldFault>
        ensures ran { IfOk result (λ entry. ClocksAt self.old loop_no ms entry self.new) }
        ensures fault { IfErr result (λ fault. MayFault self.old (Step.Clock loop_no ms) fault) }
        ensures kept { OnErr result (self.new ≡ self.old) }
    {
        let Some(core) = self.loops.get_mut(loop_no as usize) else {
            return Err(WorldFault::NoSuch);
        };
        if core.failed() {
            return Ok(LogEntry::Failed { loop_no });
        }
        let clock = core.clock(ms);
        Ok(LogEntry::Clock { loop_no, clock })
    }
}
