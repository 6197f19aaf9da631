//! What loops and workers do in threads, one atomic step after another in whatever order, and the law that ties it to the
//! world: the log of each loop is that which a run of the world gives it, with a worker for each job.
//!
//! There is no code here but the laws' functions, which do nothing. Begin with `specs/Schedule.antt` (the atomic steps) and
//! `specs/Laws.antt`.
#![tactic(auto)]

pub mod laws;
