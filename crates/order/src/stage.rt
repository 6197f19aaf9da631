// How far an order under way has come.

use interp::slices::Paused;

/// How far an order under way has come.
#[derive(Drop)]
pub(crate) enum RunStage {
    /// Nothing has run.
    Fresh,
    /// The start function is under way.
    Starting(Paused),
    /// `uv_work` is under way, after a start function that used so much, or none.
    Working(u64, Paused),
}
