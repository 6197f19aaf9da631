// What all loops are made of, and the run of one.

ghost use Rattle.std.specs.Prelude.{◌≡◌, [], IfOk};
ghost use Rattle.std.specs.Arc.{arc_value};
ghost use Rattle.marks.specs.Counts.{new_taker};
ghost use Rattle.serve.specs.Histories.{setting_at};
ghost use Rattle.serve.specs.Inner.Ends.{LoopEnds};
ghost use Rattle.serve.specs.Inner.Threads.{CanGoOn, IsTiedSoFar};

use crate::job::Job;
use crate::loop_thread::LoopThread;
use crate::place::LoopPlace;
use crate::served::Served;
use crate::service::Serves;
use crate::serving::Serving;
use crate::watch::Watch;
use board::{Board, Pass};
use claims::{Claims, LoopSeat};
use imports::Linked;
use marks::{Marks, TakeSeat};
use std::alloc::{AllocError, Global};
use std::sync::Arc;
use std::sync::atomic::{AtomicBool, Ordering};
use std::thread::Promise;

/// What all loops are made of, and whether one of them found no memory.
#[derive(Drop)]
pub struct ServicePlan {
    pub alloc: Global,
    pub linked: Arc<Linked>,
    pub serving: Serving,
    ran_out: AtomicBool,
}

/// What comes of a loop's thread: what the loop did, with its pass and its seat.
pub type LoopResult<J> = Result<(Served, Pass<J>, LoopSeat), AllocError>;

/// That what comes of a thread is said of this loop.
#[derive(Drop)]
pub struct ThreadOfLoop<'a, J> {
    pub plan: &'a ServicePlan,
    pub board: &'a Board<J>,
    pub claims: &'a Claims,
    pub loop_no: u32,
}

impl<'a, J: Job> Promise<LoopResult<J>> for ThreadOfLoop<'a, J> {
    ghost kept_by = { λ p r. IfOk r (λ end. LoopEnds J.ticket p.board.now p.claims.now.id (setting_at (arc_value p.plan.now.linked) p.plan.now.serving p.loop_no) end.0 end.1 end.2) };
}

impl ServicePlan {
    /// No loop has found no memory.
    pub fn new(alloc: Global, linked: Arc<Linked>, serving: Serving) -> ServicePlan
        ensures linked { result.linked ≡ linked }
        ensures serving { result.serving ≡ serving }
    {
        ServicePlan {
            alloc,
            linked,
            serving,
            ran_out: AtomicBool::new(false),
        }
    }

    /// Whether a loop has found no memory.
    pub fn ran_out(&self) -> bool {
        self.ran_out.load(Ordering::SeqCst)
    }

    /// One loop, until it has ended.
    pub fn run<S: Serves<J>, J: Job>(&self, service: &S, place: LoopPlace<'_, J>) -> LoopResult<J>
        requires { S.ready service.now }
        ensures { IfOk result (λ r. LoopEnds J.ticket place.entry.board.now place.entry.claims.now.id (setting_at (arc_value self.now.linked) self.now.serving place.entry.seat.loop_no) r.0 r.1 r.2) }
    {
        let outcome = self.turns(service, place);
        if outcome.is_err() {
            self.ran_out.store(true, Ordering::SeqCst);
        }
        outcome
    }

    fn turns<S: Serves<J>, J: Job>(&self, service: &S, place: LoopPlace<'_, J>) -> LoopResult<J>
        requires { S.ready service.now }
        ensures { IfOk result (λ r. LoopEnds J.ticket place.entry.board.now place.entry.claims.now.id (setting_at (arc_value self.now.linked) self.now.serving place.entry.seat.loop_no) r.0 r.1 r.2) }
    {
        let (marks, taker) = own_marks(self.alloc)?;
        let thread = self.begin(&marks, taker, place, service.watch().measures_work())?;
        thread.run(service)
    }

    /// A loop that has taken no turn yet.
    fn begin<'a, J: Job>(
        &self,
        marks: &'a Marks,
        taker: TakeSeat,
        place: LoopPlace<'a, J>,
        measures_work: bool,
    ) -> Result<LoopThread<'a, J>, AllocError>
        requires { taker ≡ new_taker marks.now 0 }
        ensures board { IfOk result (λ t. t.board ≡ place.entry.board) }
        ensures claims { IfOk result (λ t. t.recorded.core.loop.shared.loop_seat.claims ≡ place.entry.claims.now.id) }
        ensures alone { IfOk result (λ t. t.recorded.core.loop.shared.loop_seat.joined ≡ []) }
        ensures told { IfOk result (λ t. IsTiedSoFar J.ticket t) }
        ensures setting { IfOk result (λ t. t.recorded.core.setting ≡ setting_at (arc_value self.now.linked) self.now.serving place.entry.seat.loop_no) }
        ensures goes { IfOk result (λ t. CanGoOn t.recorded) }
    {
        let linked = Arc::try_clone(&self.linked)?;
        LoopThread::new(
            self.alloc,
            linked,
            marks,
            taker,
            place,
            self.serving,
            measures_work,
        )
    }
}

/// The marks of a loop to which nobody else sends.
fn own_marks(alloc: Global) -> Result<(Marks, TakeSeat), AllocError>
    ensures { IfOk result (λ m. m.1 ≡ new_taker m.0 0) }
{
    let (marks, taker, _senders) = Marks::new(alloc, 0)?;
    Ok((marks, taker))
}
