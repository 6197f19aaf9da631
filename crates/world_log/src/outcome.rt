// What a step did with the jobs and replies that pass between loops and workers.

use events::trap::TrapCode;

/// A job, by the loop that asked for it and that loop's request.
#[derive(Clone, Copy, Debug)]
pub struct JobId {
    /// The loop, counted from 0.
    pub loop_no: u32,
    /// The loop's request, from 1 on.
    pub request: u32,
}

/// How a job ended.
#[derive(Clone, Copy, Debug)]
pub enum JobEnd {
    /// The work function returned this i32, here as an unsigned number.
    Done(u32),
    /// The work trapped.
    Trap(TrapCode),
    /// The limit of calls was met.
    Depth,
    /// The fuel was spent.
    Spent,
    /// There was no memory for the instance or the reply.
    NoMemory,
}

/// What a post did.
#[derive(Clone, Copy, Debug)]
pub enum PostOutcome {
    /// The order of this request stands at the back of the job list.
    Request(u32),
    /// The loop had no order to hand out.
    Nothing,
    /// The job list was full.
    Full,
}

/// What a start did.
#[derive(Clone, Copy, Debug)]
pub enum StartOutcome {
    /// The job may be run.
    Begun(JobId),
    /// The job's loop had cancelled it.
    Dropped(JobId),
    /// The worker had taken no job.
    Nothing,
}

/// What a finish did.
#[derive(Clone, Copy, Debug)]
pub enum FinishOutcome {
    /// The job ran, and ended like this.
    Ended(JobId, JobEnd),
    /// The worker had started no job.
    Nothing,
}

/// What a collect did.
#[derive(Clone, Copy, Debug)]
pub enum CollectOutcome {
    /// The loop accepted the reply to this request.
    Request(u32),
    /// The loop waits for no such reply.
    Stranger,
    /// No reply was there for the loop.
    Nothing,
}
