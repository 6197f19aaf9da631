//! What the one seat knows, the rule that ties it to the words, and what each step shows.
//!
//! The history is the view of the table's one seat: what a step makes of a view is said with it, while a struct's own ghost data can be set
//! by hand-written separation logic alone. A slot's word is the number of the open request, or 0, and not `4 * request + state` as between
//! threads: no answer depends on whether a request that isn't open was started or cancelled.
ghost use Rattle.std.specs.Prelude.{◌≡◌, ◌==◌, ℕ};
ghost use Rattle.desk.specs.Desk.{new_desk, opened, DeskCancels, DeskTakes, DeskStarts, sent_own, sent_by_another};
ghost use Rattle.desk.specs.Inner.Rule.{desk_of, history_of, waiting_place, DeskIsKept};

use atomic_table::{Play, TableRule};
use limits::MAX_ASYNCS;
use std::collections::LinkedList;

/// All that was done at a desk, and what waits there. It exists in proofs alone, and no value of it is made.
pub(crate) struct History {
    pub(crate) loop_no: u64,
    /// The requests that the loop opened, cancelled and found started, each with its slot.
    pub(crate) opened: LinkedList<(u64, u64)>,
    pub(crate) cancelled: LinkedList<(u64, u64)>,
    pub(crate) found_started: LinkedList<(u64, u64)>,
    /// For each async the takes, the sum of what they found, the loop's own sends, and those of them after the last take.
    pub(crate) takes: [u64; MAX_ASYNCS],
    pub(crate) taken: [u64; MAX_ASYNCS],
    pub(crate) own: [u64; MAX_ASYNCS],
    pub(crate) untaken: [u64; MAX_ASYNCS],
    /// The requests that workers started.
    pub(crate) started: LinkedList<(u64, u64)>,
    /// For each async what waits, and the sends of others.
    pub(crate) waiting: [u64; MAX_ASYNCS],
    pub(crate) sent: [u64; MAX_ASYNCS],
}

/// What holds between any two steps. Its key is the loop's number.
pub(crate) struct Agreement;

impl TableRule<(), History, u32> for Agreement {
    ghost holds = { λ _ s. DeskIsKept s.words s.views };

    ghost first = { λ loop_no. history_of (new_desk loop_no) };
}

/// A store of its number in the slot's word opens a request.
pub(crate) struct Opening;

impl Play<(), History> for Opening {
    ghost then = { λ step before _ after. desk_of after.0 ≡ opened (desk_of before.0) (step.word, step.first) };
}

/// An exchange of its number for 0 cancels a request, where it was found.
pub(crate) struct Cancelling;

impl Play<(), History> for Cancelling {
    ghost then = { λ step before found after. DeskCancels (desk_of before.0) (step.word, step.first) (found == step.first) (desk_of after.0) };
}

/// A worker starts it by this exchange.
pub(crate) struct Starting;

impl Play<(), History> for Starting {
    ghost then = { λ step before found after. DeskStarts (desk_of before.0) (step.word, step.first) (found == step.first) (desk_of after.0) };
}

/// An addition of 1 is a send of the loop.
pub(crate) struct LoopSending;

impl Play<(), History> for LoopSending {
    ghost then = { λ step before _ after. (a : ℕ) → step.word ≡ waiting_place a → desk_of after.0 ≡ sent_own (desk_of before.0) a };
}

/// Another thread sends by this addition.
pub(crate) struct Getting;

impl Play<(), History> for Getting {
    ghost then = { λ step before _ after. (a : ℕ) → step.word ≡ waiting_place a → desk_of after.0 ≡ sent_by_another (desk_of before.0) a };
}

/// A swap with 0 is a take.
pub(crate) struct LoopTaking;

impl Play<(), History> for LoopTaking {
    ghost then = { λ step before found after. (a : ℕ) → step.word ≡ waiting_place a → DeskTakes (desk_of before.0) a found (desk_of after.0) };
}
