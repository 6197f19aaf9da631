// The jobs of the tests. Their orders have no fuel, and each is answered that it was spent.

ghost use Rattle.std.specs.Prelude.{◌≡◌, ◌<◌, ℕ, [], IfOk, codes};
ghost use Rattle.std.specs.Arc.{arc_value};
ghost use Rattle.limits.specs.declared.TheConstants.{MAX_LOOPS, MAX_REQUESTS};
ghost use Rattle.imports.specs.Linking.{ExportsFunction};
ghost use Rattle.board.specs.Jobs.{ticket_of};

use crate::hall::ticket;
use board::JobBox;
use claims::Ticket;
use imports::{EntryPoint, Linked};
use order::{Order, Reply};
use std::alloc::{AllocError, Global};
use std::marker::Model;
use std::sync::Arc;
use std::sync::atomic::{AtomicU64, Ordering};
use std::test::Fail;
use test_fixtures::linked_of;

/// What jobs are made of, and how often they were called.
#[derive(Drop)]
pub struct Jobs {
    pub alloc: Global,
    linked: Arc<Linked>,
    bytes: Arc<Vec<u8>>,
    pub calls: Arc<AtomicU64>,
}

// Their module has a work function, and their bytes are none. A test needs to know nothing of them.
impl Model for Jobs {
    ghost use Rattle.std.specs.Prelude.{◌≡◌, ℕ, [], codes};
    ghost use Rattle.std.specs.Arc.{arc_value};
    ghost use Rattle.imports.specs.Linking.{ExportsFunction};

    ghost Value = { Unit {0} };

    ghost view = { λ _. tt };

    ghost invariant = { λ j. ((f : ℕ) × ExportsFunction (arc_value j.linked).contents (codes "uv_work") f) × ((arc_value j.bytes).items ≡ []) };
}

/// A module whose `uv_work` gives its operation.
const WORKS: &str =
    "0061736d0100000001060160017f017f03020100070b010775765f776f726b00000a0601040020000b";

impl Jobs {
    pub fn new(alloc: Global) -> Result<Jobs, Fail> {
        let linked = linked_of(alloc, WORKS)?;
        let Some(_) = linked.entry(EntryPoint::Work) else {
            return Err(Fail::from("no `uv_work`"));
        };
        Ok(Jobs {
            alloc,
            linked,
            bytes: Arc::new(alloc, Vec::new(alloc))?,
            calls: Arc::new(alloc, AtomicU64::new(0))?,
        })
    }

    /// One more owner of each part.
    fn shared(&self) -> Result<Jobs, AllocError> {
        Ok(Jobs {
            alloc: self.alloc,
            linked: Arc::try_clone(&self.linked)?,
            bytes: Arc::try_clone(&self.bytes)?,
            calls: Arc::try_clone(&self.calls)?,
        })
    }

    fn into_reply(self, ticket: Ticket) -> Reply
        ensures { ticket_of result.order ≡ ticket }
    {
        let Jobs {
            alloc,
            linked,
            bytes,
            calls: _,
        } = self;
        let order = Order {
            loop_no: ticket.loop_no,
            request: ticket.request,
            slot: ticket.slot,
            module: linked,
            op: 0,
            bytes,
            fuel: 0,
            depth: 1,
        };
        order.run(alloc)
    }

    /// The reply to the ticket's request.
    pub fn reply(&self, ticket: Ticket) -> Result<Reply, AllocError>
        ensures { IfOk result (λ reply. ticket_of reply.order ≡ ticket) }
    {
        Ok(self.shared()?.into_reply(ticket))
    }

    /// A job that gives that reply and counts its call.
    pub fn job(&self, ticket: Ticket) -> Result<JobBox, AllocError>
        requires { (ticket.loop_no < MAX_LOOPS) × (ticket.slot < MAX_REQUESTS) }
        ensures { IfOk result (λ job. job.ticket ≡ ticket) }
    {
        let own = self.shared()?;
        let run = move || -> Reply
            ensures { ticket_of result.order ≡ ticket }
        {
            own.calls.fetch_add(1, Ordering::SeqCst);
            own.into_reply(ticket)
        };
        Ok(JobBox::new(ticket, Box::new(self.alloc, run)?))
    }

    /// The jobs of the loop's first so many requests, to be popped in their order.
    pub fn in_turn(&self, count: u32) -> Result<Vec<JobBox>, AllocError> {
        let mut jobs = Vec::new(self.alloc);
        for n in 0..count {
            jobs.push(self.job(ticket(count - n))?)?;
        }
        Ok(jobs)
    }

    /// How often they were called.
    pub fn called(&self) -> u64 {
        self.calls.load(Ordering::SeqCst)
    }

    /// How many jobs still stand, and this.
    pub fn owners(&self) -> usize {
        Arc::strong_count(&self.calls)
    }
}
