// A loop in its thread.

ghost use Rattle.std.specs.Prelude.{◌≡◌, ◌<◌, ◌+◌, length};
ghost use Rattle.limits.specs.declared.TheConstants.{MAX_LOOPS};
ghost use Rattle.board.specs.Boards.{IsPassOf, HasNumber};

use crate::account::Account;
use crate::job::Job;
use crate::place::LoopPlace;
use crate::plan::LoopResult;
use crate::record::LoopRecord;
use crate::served::{LoopEnding, Served};
use crate::service::Serves;
use crate::serving::Serving;
use crate::watch::Watch;
use board::{Board, Event, Heard, Pass};
use claims::LoopSeat;
use imports::Linked;
use marks::{Marks, TakeSeat};
use phases::LoopCore;
use pool::Seats;
use std::alloc::{AllocError, Global};
use std::sync::Arc;

/// A loop in its thread: its record, its pass of the board, and a job that the board refused.
#[derive(Drop)]
pub struct LoopThread<'a, J> {
    board: &'a Board<J>,
    pass: Pass<J>,
    loop_no: u32,
    recorded: LoopRecord<'a>,
    kept: Option<J>,
    ghost of_board: { IsPassOf board.now pass },
    ghost number: { HasNumber (loop_no + 1) pass },
    ghost there: { loop_no < length board.now.replies },
    ghost below: { loop_no < MAX_LOOPS },
    ghost numbered: { recorded.core.setting.loop_no ≡ loop_no },
}

impl<'a, J: Job> LoopThread<'a, J> {
    ghost use Rattle.std.specs.Prelude.{◌≡◌, ◌<◌, Some, None, [], length, IfOk, IfSome, OnOk};
    ghost use Rattle.std.specs.Arc.{arc_value};
    ghost use Rattle.board.specs.Boards.{IsEventOf};
    ghost use Rattle.marks.specs.Counts.{new_taker};
    ghost use Rattle.serve.specs.Histories.{EndsBy, IsDrained, setting_at, thread_calls};
    ghost use Rattle.serve.specs.Inner.Ends.{LoopEnds};
    ghost use Rattle.serve.specs.Inner.Threads.{CanGoOn, HandsOutNone, HasTied, jobs_of, IsTiedSoFar, KeepsGoing, ComesServing};
    ghost use Rattle.serve.specs.Inner.Turns.{IsAtTurn};

    /// A loop that has done nothing, over a new instance of the module.
    #[tactic(auto, using(crate::proofs::OneEventMore::opens_new))]
    pub fn new(
        alloc: Global,
        linked: Arc<Linked>,
        marks: &'a Marks,
        taker: TakeSeat,
        place: LoopPlace<'a, J>,
        serving: Serving,
        measures_work: bool,
    ) -> Result<LoopThread<'a, J>, AllocError>
        requires { taker ≡ new_taker marks.now 0 }
        ensures board { IfOk result (λ t. t.board ≡ place.entry.board) }
        ensures claims { IfOk result (λ t. t.recorded.core.loop.shared.loop_seat.claims ≡ place.entry.claims.now.id) }
        ensures alone { IfOk result (λ t. t.recorded.core.loop.shared.loop_seat.joined ≡ []) }
        ensures told { IfOk result (λ t. IsTiedSoFar J.ticket t) }
        ensures setting { IfOk result (λ t. t.recorded.core.setting ≡ setting_at (arc_value linked) serving place.entry.seat.loop_no) }
        ensures goes { IfOk result (λ t. CanGoOn t.recorded) }
    {
        let LoopPlace {
            board,
            pass,
            claims,
            seat,
        } = place;
        let loop_no = seat.loop_no();
        let seats = Seats::new(claims, seat.posting(), marks, taker);
        let core = LoopCore::new(
            alloc,
            linked,
            seats,
            loop_no,
            serving.settings.fuel,
            serving.settings.work_fuel,
            serving.settings.depth,
        )?;
        let account = Account::empty(alloc, measures_work)?;
        Ok(LoopThread {
            board,
            pass,
            loop_no,
            recorded: LoopRecord::new(alloc, core, account),
            kept: None,
        })
    }

    /// Takes turns until the loop has ended. What it did, with its pass and its seat.
    pub fn run<S: Serves<J>>(mut self, service: &S) -> LoopResult<J>
        requires ready { S.ready service.now }
        requires goes { CanGoOn self.recorded }
        requires told { IsTiedSoFar J.ticket self }
        requires alone { self.recorded.core.loop.shared.loop_seat.joined ≡ [] }
        ensures { IfOk result (λ r. LoopEnds J.ticket self.entry.board.now self.entry.recorded.core.loop.shared.loop_seat.claims self.entry.recorded.core.setting r.0 r.1 r.2) }
    {
        let ending = self.until_ended(service)?;
        Ok(self.into_served(ending))
    }

    /// What the loop has done, and how it ended.
    fn into_served(self, ending: LoopEnding) -> (Served, Pass<J>, LoopSeat)
        requires ends { EndsBy thread_calls ending self.recorded.core.loop self.recorded.ran }
        requires told { IsTiedSoFar J.ticket self }
        requires alone { self.recorded.core.loop.shared.loop_seat.joined ≡ [] }
        ensures { LoopEnds J.ticket self.entry.board.now self.entry.recorded.core.loop.shared.loop_seat.claims self.entry.recorded.core.setting result.0 result.1 result.2 }
    {
        let (served, seat) = self.recorded.into_served(self.loop_no, ending);
        (served, self.pass, seat)
    }

    fn until_ended<S: Serves<J>>(&mut self, service: &S) -> Result<LoopEnding, AllocError>
        requires ready { S.ready service.now }
        requires goes { CanGoOn self.old.recorded }
        ensures ends { IfOk result (λ ending. ComesServing J.ticket self.old (Some ending) self.new) }
    {
        for _ in service.rt().forever() {
            if let Some(ending) = self.turn(service)? {
                return Ok(ending);
            }
        }
        unreachable!()
    }

    /// One turn. How the loop ended, if it did.
    fn turn<S: Serves<J>>(&mut self, service: &S) -> Result<Option<LoopEnding>, AllocError>
        requires ready { S.ready service.now }
        requires goes { CanGoOn self.old.recorded }
        ensures comes { IfOk result (λ ended. ComesServing J.ticket self.old ended self.new) }
    {
        let board = self.board;
        let heard = self.exchange_if_any(service)?;
        self.step_through(service, board, heard)
    }

    /// The exchange with the board. Without requests and without a job that was kept there is none.
    fn exchange_if_any<S: Serves<J>>(&mut self, service: &S) -> Result<Option<Heard>, AllocError>
        requires ready { S.ready service.now }
        ensures keeps { KeepsGoing J.ticket self.old self.new }
        ensures heard { IfOk result (λ heard. IfSome heard (λ h. IsEventOf self.old.board.now h.event)) }
    {
        if !self.recorded.has_requests() && self.kept.is_none() {
            return Ok(None);
        }
        Ok(Some(self.exchange(service)?))
    }

    /// Accepts the replies and posts the orders that are there. What the loop waits for if it has nothing else to do.
    fn exchange<S: Serves<J>>(&mut self, service: &S) -> Result<Heard, AllocError>
        requires ready { S.ready service.now }
        ensures keeps { KeepsGoing J.ticket self.old self.new }
        ensures heard { IfOk result (λ heard. IsEventOf self.old.board.now heard.event) }
    {
        let reply = self.board.listen(Event::Put(self.loop_no));
        let room = self.board.listen(Event::Taken);
        self.accept_all(service);
        self.post_all(service)?;
        Ok(if self.kept.is_some() { room } else { reply })
    }

    /// Steps through the loop, and rests where no callback ran and the loop has nothing to do.
    fn step_through<S: Serves<J>>(
        &mut self,
        service: &S,
        board: &Board<J>,
        heard: Option<Heard>,
    ) -> Result<Option<LoopEnding>, AllocError>
        requires goes { CanGoOn self.old.recorded }
        requires heard { IfSome heard (λ h. IsEventOf board.now h.event) }
        ensures comes { IfOk result (λ ended. ComesServing J.ticket self.old ended self.new) }
    {
        let ran = self.recorded.ran;
        let ended = self
            .recorded
            .step_through(service.rt(), self.loop_no, service.watch())?;
        if ended.is_some() || self.recorded.ran > ran || self.recorded.is_due() {
            return Ok(ended);
        }
        Ok(self.rest(service, board, heard))
    }

    /// Where requests are outstanding, the loop sleeps until one is answered, or, where a job is kept, until there is room
    /// for it: a worker that has put a reply takes a job next. With nothing heard it takes a turn first. Without requests the
    /// clock is raised to the next timer, and without a timer the loop waits for ever.
    fn rest<S: Serves<J>>(
        &mut self,
        service: &S,
        board: &Board<J>,
        heard: Option<Heard>,
    ) -> Option<LoopEnding>
        requires goes { CanGoOn self.old.recorded }
        requires at_turn { IsAtTurn self.old.recorded.core.loop.state }
        requires drained { IsDrained thread_calls self.old.recorded.core.loop }
        requires heard { IfSome heard (λ h. IsEventOf board.now h.event) }
        ensures comes { ComesServing J.ticket self.old result self.new }
    {
        if self.recorded.has_requests() {
            if let Some(heard) = heard {
                board.wait(service.rt(), heard);
            }
            return None;
        }
        self.recorded
            .wait(service.rt(), self.loop_no, service.watch())
    }

    /// Accepts all replies that are there.
    fn accept_all<S: Serves<J>>(&mut self, service: &S)
        ensures keeps { KeepsGoing J.ticket self.old self.new }
    {
        let rt = service.rt();
        for _ in rt.forever() {
            let Some(reply) = self.board.collect(rt, &mut self.pass, self.loop_no) else {
                return;
            };
            let request = reply.order.request;
            let is_taken = self.recorded.accept(reply);
            service.watch().collect(rt, self.loop_no, request, is_taken);
        }
    }

    /// Posts the job that was kept and all orders that are there, until a post is refused. That job is kept.
    fn post_all<S: Serves<J>>(&mut self, service: &S) -> Result<(), AllocError>
        requires ready { S.ready service.now }
        ensures keeps { KeepsGoing J.ticket self.old self.new }
        ensures all { OnOk result (self.new.kept ≡ None → HandsOutNone self.new.recorded) }
    {
        let rt = service.rt();
        for _ in rt.forever() {
            let Some(next) = self.next_job(service)? else {
                return Ok(());
            };
            let Some(job) = next else {
                continue;
            };
            if let Err(job) = self.board.post(rt, &mut self.pass, job) {
                self.kept = Some(job);
                return Ok(());
            }
        }
        unreachable!()
    }

    /// The job that was kept, or one for the next order, whose request is posted and reported so: None in its place if it has
    /// another ticket. None if there is no order.
    fn next_job<S: Serves<J>>(&mut self, service: &S) -> Result<Option<Option<J>>, AllocError>
        requires ready { S.ready service.now }
        ensures keeps { KeepsGoing J.ticket self.old self.new }
        ensures none { self.new.kept ≡ None }
        ensures over { IfOk result (λ next. next ≡ None → HandsOutNone self.new.recorded) }
        ensures told { IfOk result (λ next. IsTiedSoFar J.ticket self.old → ∥ HasTied J.ticket self.new (jobs_of next) ∥₁) }
    {
        if let Some(job) = self.kept.take() {
            return Ok(Some(Some(job)));
        }
        let Some(order) = self.recorded.next_order() else {
            return Ok(None);
        };
        self.recorded.post(order.slot, order.request);
        service
            .watch()
            .post(service.rt(), self.loop_no, order.request);
        let meter = self.recorded.meter()?;
        let made = service.job(order, meter)?;
        Ok(Some(made))
    }
}
