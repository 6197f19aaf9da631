// Who hears what loops and workers do, as they do it.

use events::did::StepDid;
use order::Reply;
use std::sync::Wait;

/// Hears what loops and workers do, each time by the thread of the loop or the worker that did it, which goes on once the
/// call returns. Of one request it hears in this order that it was posted, taken and started, that its work is over, and
/// that its loop was offered the reply.
pub trait Watch {
    /// Whether `Account::most_work` is asked for, which costs some steps for each request.
    fn measures_work(&self) -> bool;

    /// The loop took this step, and the values are what its last callback emitted.
    fn step<R: Wait>(&self, rt: &R, loop_no: u32, did: StepDid, emits: &[u64]);

    /// The order of this request is posted.
    fn post<R: Wait>(&self, rt: &R, loop_no: u32, request: u32);

    /// The loop was offered the reply to this request, and took it or not.
    fn collect<R: Wait>(&self, rt: &R, loop_no: u32, request: u32, is_taken: bool);

    /// The loop's clock was raised to this moment, in milliseconds.
    fn clock<R: Wait>(&self, rt: &R, loop_no: u32, clock: u64);

    /// The worker took the job of this request of this loop.
    fn take<R: Wait>(&self, rt: &R, worker_no: u32, loop_no: u32, request: u32);

    /// The worker started it, or found it cancelled and dropped it.
    fn start<R: Wait>(&self, rt: &R, worker_no: u32, loop_no: u32, request: u32, is_begun: bool);

    /// The worker ran it, and this is its reply, which is not put yet.
    fn finish<R: Wait>(&self, rt: &R, worker_no: u32, reply: &Reply);
}

/// Hears, and does nothing.
pub struct Nobody;

impl Watch for Nobody {
    fn measures_work(&self) -> bool {
        false
    }

    fn step<R: Wait>(&self, _rt: &R, _loop_no: u32, _did: StepDid, _emits: &[u64]) {}

    fn post<R: Wait>(&self, _rt: &R, _loop_no: u32, _request: u32) {}

    fn collect<R: Wait>(&self, _rt: &R, _loop_no: u32, _request: u32, _is_taken: bool) {}

    fn clock<R: Wait>(&self, _rt: &R, _loop_no: u32, _clock: u64) {}

    fn take<R: Wait>(&self, _rt: &R, _worker_no: u32, _loop_no: u32, _request: u32) {}

    fn start<R: Wait>(
        &self,
        _rt: &R,
        _worker_no: u32,
        _loop_no: u32,
        _request: u32,
        _is_begun: bool,
    ) {}

    fn finish<R: Wait>(&self, _rt: &R, _worker_no: u32, _reply: &Reply) {}
}
