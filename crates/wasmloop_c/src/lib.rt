//! The host for programs in C: modules, loops, jobs and instances in handles that stand in C's own memory.
//!
//! Each exported call answers a status of `status`, waits for nothing, and leaves a handle that it can't use as it was. By its contract
//! it does to what the handle has what `load`, `LoopCore` and `Order::run` do. A handle may go to another thread
//! (`handles_may_go`). C's names for the calls, with tests for null pointers before them, are in capi/include/wasmloop.h.
//!
//! Begin with `handle` and `thing`; what the calls mean is `specs/Calls.antt`, and their numbers are `specs/Numbers.antt`.
//! The raw pointers are in `raw`, and in the crate `slot`.
#![tactic(auto)]

mod bytes_calls;
mod bytes_host;
mod call_slices;
mod checked;
mod contents;
mod copying;
mod did;
mod ended;
mod exports;
mod fault;
mod first_slice;
mod handle;
mod held;
mod holding;
mod inspect;
mod instances;
mod job;
mod kind;
mod load_told;
mod lone;
mod loops;
mod modules;
mod numbered;
mod own_place;
mod place;
mod raw;
mod sentence;
mod shape;
mod signature;
mod slices;
mod status;
mod step_slices;
mod stops;
mod thing;
mod turn;
mod turn_slices;
mod warning;
mod work;

fn may_go<T: Send>() {}

/// A handle may go to another thread.
pub fn handles_may_go() {
    may_go::<handle::Handle>();
}
