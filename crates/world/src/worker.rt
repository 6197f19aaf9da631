// What a worker is at.

use order::Order;

/// What a worker is at: nothing, a job that it took, or one that it started.
#[derive(Drop)]
pub enum Worker {
    Idle,
    Taken(Order),
    Started(Order),
}
