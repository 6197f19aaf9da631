//! One work request of a loop: the order, what becomes of it, and the reply; and what a guest is answered who reads
//! its input or sets its reply.
//!
//! `Order::run` makes an instance, runs the start function and then `uv_work`, and gives the reply. A `Reply` keeps in its type that it
//! holds the end of its own order, which is one (`laws::one_end`), or that there was no memory: so whoever holds a reply
//! knows it, whatever thread made it. `Order::run_told` also answers what the run used and where it stopped; `run_in` does so
//! in the `Room` that the last order's instance had, so that nothing is taken anew for this one's.
//! `Order::is_same` compares two orders in every field.
//!
//! Begin with `order` and `run`; what one thread computes is `specs/Work.antt`, and where it stops `specs/Stopping.antt`.
#![tactic(auto)]

mod host;
pub mod laws;
mod machine;
mod order;
mod reply;
mod reserving;
mod run;
mod running;
mod stage;
mod trail;
pub mod uv;

pub use order::{Order, Outcome};
pub use reply::Reply;
pub use reserving::{RefusedMemory, reserve_machine};
pub use run::Told;
pub use running::{OrderGoing, Running};
pub use trail::{MAX_TRAIL, Trail};
