// What a loop did last, for those who want to know why it ended.

use crate::meter::Meter;
use events::ended::{BareEnded, BareEnding, Ended};
use events::phase::{EntryKind, Phase};
use limits::MAX_ASYNCS;
use order::{Order, Outcome, Reply};
use phases::BareDid;
use std::alloc::{AllocError, Global};
use std::marker::Model;
use std::sync::Arc;

/// How many orders are kept at most whose work did not return.
const MAX_UNDONE: usize = 16;

/// What a callback was run for.
#[derive(Clone, Copy, Debug, PartialEq, Eq)]
pub struct Callback {
    /// The kind.
    pub kind: EntryKind,
    /// The handle, or the request where the kind is `After`; 0 where it is `Start` or `Main`.
    pub number: u32,
}

/// What a loop did last, and what its callbacks and its work functions used. No clause speaks of it, so contracts see nothing of it.
#[derive(Drop)]
pub struct Account {
    last: Option<Callback>,
    in_row: u32,
    stopped: Option<Ended>,
    most_used: u64,
    work: Meter,
    now: u64,
    asyncs: Vec<u32>,
    undone: Vec<Order>,
    refused: u64,
}

impl Model for Account {
    ghost Value = { Unit {0} };

    ghost view = { λ a. tt };
}

/// A copy of an order.
fn copy_of(order: &Order) -> Result<Order, AllocError> {
    Ok(Order {
        loop_no: order.loop_no,
        request: order.request,
        slot: order.slot,
        module: Arc::try_clone(&order.module)?,
        op: order.op,
        bytes: Arc::try_clone(&order.bytes)?,
        fuel: order.fuel,
        depth: order.depth,
    })
}

impl Account {
    /// Of a loop that has done nothing. What its work functions use is kept if that is asked for.
    pub(crate) fn empty(alloc: Global, measures_work: bool) -> Result<Account, AllocError> {
        Ok(Account {
            last: None,
            in_row: 0,
            stopped: None,
            most_used: 0,
            work: Meter::begun(alloc, measures_work)?,
            now: 0,
            asyncs: Vec::with_capacity(alloc, MAX_ASYNCS)?,
            undone: Vec::with_capacity(alloc, MAX_UNDONE)?,
            refused: 0,
        })
    }

    /// The loop took this step.
    #[inline(always)]
    pub(crate) fn saw(&mut self, did: &BareDid) {
        match did {
            BareDid::Entered { phase, now } => self.enter(*phase, *now),
            BareDid::Ran {
                kind,
                number,
                ended,
            } => {
                let (kind, number) = (*kind, *number);
                self.run(Callback { kind, number }, *ended);
            }
            BareDid::Skipped {
                kind: EntryKind::Async,
                number,
            } => self.pass_by(*number),
            BareDid::Skipped { .. } | BareDid::Over | BareDid::Failed => {}
        }
    }

    /// The asyncs are those of the last poll phase.
    fn enter(&mut self, phase: Phase, now: u64) {
        self.now = now;
        if phase == Phase::Poll {
            self.asyncs.clear();
        }
    }

    /// A loop fails with the first callback that doesn't return, so `stopped` is set once at most.
    fn run(&mut self, callback: Callback, ended: BareEnded) {
        self.in_row = if self.last == Some(callback) {
            self.in_row.saturating_add(1)
        } else {
            1
        };
        self.last = Some(callback);
        self.most_used = self.most_used.max(ended.used);
        if ended.ending != BareEnding::Return {
            self.stopped = Some(ended.whole());
        }
    }

    fn pass_by(&mut self, handle: u32) {
        if self.asyncs.len() < self.asyncs.capacity() {
            self.asyncs.push_reserved(handle);
        }
    }

    /// The loop was offered this reply.
    pub(crate) fn heard(&mut self, reply: &Reply) {
        match reply.outcome {
            Outcome::Done(_, _) | Outcome::NoMemory(_) => {}
            Outcome::Trap(_) | Outcome::Depth | Outcome::Spent => self.keep(&reply.order),
        }
    }

    fn keep(&mut self, order: &Order) {
        if self.undone.len() == self.undone.capacity() {
            return;
        }
        if let Ok(order) = copy_of(order) {
            self.undone.push_reserved(order);
        }
    }

    /// The last callback, if one ran.
    pub fn last(&self) -> Option<Callback> {
        self.last
    }

    /// How many of the last callbacks, one after the other, were run for the same as the last.
    pub fn in_row(&self) -> u32 {
        self.in_row
    }

    /// How the last callback ended, if it did not return.
    pub fn stopped(&self) -> Option<&Ended> {
        self.stopped.as_ref()
    }

    /// The greatest number of units of fuel that a callback used.
    pub fn most_used(&self) -> u64 {
        self.most_used
    }

    /// The greatest number of units of fuel that a work function used, with the start function before it. None where none ran,
    /// and where nobody asked for it.
    pub fn most_work(&self) -> Option<u64> {
        self.work.most()
    }

    /// The meter to which tasks report the fuel that they use.
    pub(crate) fn meter(&self) -> Result<Meter, AllocError> {
        self.work.shared()
    }

    /// The loop's cached now, in milliseconds.
    pub fn now(&self) -> u64 {
        self.now
    }

    /// The asyncs that were passed by in the last poll phase, since nothing was sent to them: their handles.
    pub fn asyncs(&self) -> &[u32] {
        self.asyncs.as_slice()
    }

    /// How many numbers its callbacks were refused, since a callback may emit 64.
    pub fn refused(&self) -> u64 {
        self.refused
    }

    /// So many numbers were refused.
    pub(crate) fn count_refused(&mut self, refused: u64) {
        self.refused = refused;
    }

    /// The orders that are kept.
    pub(crate) fn into_undone(self) -> Vec<Order> {
        let Account {
            last: _,
            in_row: _,
            stopped: _,
            most_used: _,
            work: _,
            now: _,
            asyncs: _,
            undone,
            refused: _,
        } = self;
        undone
    }
}
