// A loop, with how many of its callbacks ran and what they have emitted.

ghost use Rattle.std.specs.Prelude.{◌≡◌, ◌≤◌, ◌+◌, ◌++◌, length, vec_len, vec_capacity};
ghost use Rattle.limits.specs.declared.TheConstants.{MAX_CALLBACKS};
ghost use Rattle.serve.specs.Inner.Alone.{IsAlone};
ghost use Rattle.serve.specs.Inner.Turns.{enters_timers};

use crate::account::Account;
use crate::meter::Meter;
use crate::served::{LoopEnding, Served};
use crate::watch::Watch;
use claims::LoopSeat;
use events::did::Hint;
use events::phase::Phase;
use limits::{MAX_CALLBACKS, MAX_EMITS};
use order::{Order, Reply, Trail};
use phases::{Accepted, BareDid, LoopCore};
use pool::Seats;
use std::alloc::{AllocError, Global};
use std::sync::Wait;

/// A loop, with how many of its callbacks ran and all that they have emitted. A call's contract says by which events it moves the loop.
#[derive(Drop)]
pub struct LoopRecord<'a> {
    pub(crate) core: LoopCore<Seats<'a>>,
    pub(crate) ran: u32,
    pub(crate) emits: Vec<u64>,
    account: Account,
    ghost few: { ran ≤ MAX_CALLBACKS },
    ghost alone: { IsAlone core.loop.shared.taker },
}

fn enters_timers(did: &BareDid) -> bool
    ensures { result ≡ enters_timers did.now }
{
    matches!(
        did,
        BareDid::Entered {
            phase: Phase::Timers,
            ..
        }
    )
}

fn is_taken(accepted: &Accepted) -> bool {
    matches!(accepted, Accepted::Accepted)
}

/// Puts values after others, for which there is room. Mostly there are none.
fn append(emits: &mut Vec<u64>, more: &[u64])
    requires { vec_len emits.old + length more.now ≤ vec_capacity emits.old }
    ensures { emits.new.items ≡ emits.old.items ++ more.now }
{
    if more.is_empty() {
        return;
    }
    let Ok(()) = emits.extend_from_slice(more) else {
        unreachable!()
    };
}

/// Where the last callback stopped, if it did not return.
fn last_trail(core: &LoopCore<Seats<'_>>) -> Option<Trail> {
    Some(Trail::of(&core.last_stop()?))
}

impl<'a> LoopRecord<'a> {
    ghost use Rattle.std.specs.Prelude.{◌≡◌, ◌<◌, ◌≤◌, [], true, None, IfOk, IfSome};
    ghost use Rattle.std.specs.Bool.{OnFalse};
    ghost use Rattle.limits.specs.declared.TheConstants.{MAX_CALLBACKS, MAX_REQUESTS};
    ghost use Rattle.order.specs.Orders.{order_of};
    ghost use Rattle.order.specs.Runnable.{CanRun};
    ghost use Rattle.phases.specs.History.{IsOpening};
    ghost use Rattle.phases.specs.PhaseList.{hint_of};
    ghost use Rattle.phases.specs.declared.did.BareDid.TheVariants as BareDid;
    ghost use Rattle.events.specs.declared.did.Hint.TheVariants as Hint;
    ghost use Rattle.phases.specs.declared.entry.Status.TheVariants as status;
    ghost use Rattle.serve.specs.Histories.{HasDone, EndsBy, IsDrained, thread_calls};
    ghost use Rattle.serve.specs.Inner.Alone.{IsAlone};
    ghost use Rattle.serve.specs.Inner.Moves.{MovesAlone, RecordHandsOut, RecordPosts, IsOffered};
    ghost use Rattle.serve.specs.Inner.Turns.{enters_timers, IsAtTurn, Drains, MayGoOn, StepsTo, EndsOrGoesOn};

    /// Of a loop that has done nothing.
    pub fn new(alloc: Global, core: LoopCore<Seats<'a>>, account: Account) -> LoopRecord<'a>
        requires opens { IsOpening thread_calls core.setting core.loop }
        requires alone { IsAlone core.loop.shared.taker }
        ensures setting { result.core.setting ≡ core.entry.setting }
        ensures shared { result.core.loop.shared ≡ core.entry.loop.shared }
        ensures done { (d : HasDone thread_calls result.core.setting result.core.loop result.ran result.emits.items) × (d.events ≡ []) }
        ensures goes { MayGoOn thread_calls result.core.loop result.ran }
    {
        LoopRecord {
            core,
            ran: 0,
            emits: Vec::new(alloc),
            account,
        }
    }

    /// Offers a reply to the loop, which drops it where it is not the loop's. Whether the loop takes it.
    pub fn accept(&mut self, reply: Reply) -> bool
        ensures offered { IsOffered self.old reply self.new }
        ensures setting { self.new.core.setting ≡ self.old.core.setting }
        ensures goes { MayGoOn thread_calls self.old.core.loop self.old.ran → MayGoOn thread_calls self.new.core.loop self.new.ran }
    {
        self.account.heard(&reply);
        let accepted = self.core.accept(reply);
        is_taken(&accepted)
    }

    /// The loop's next order, if there is one.
    pub fn next_order(&mut self) -> Option<Order>
        ensures handed { RecordHandsOut self.old result self.new }
        ensures can_run { IfSome result (λ o. CanRun (order_of o)) }
        ensures own { IfSome result (λ o. o.loop_no ≡ self.old.core.setting.loop_no) }
        ensures slot { IfSome result (λ o. o.slot < MAX_REQUESTS) }
        ensures number { IfSome result (λ o. 0 < o.request) }
        ensures setting { self.new.core.setting ≡ self.old.core.setting }
        ensures goes { MayGoOn thread_calls self.old.core.loop self.old.ran → MayGoOn thread_calls self.new.core.loop self.new.ran }
    {
        self.core.next_order()
    }

    /// Posts a request, whose order was handed out, so that a worker can start it.
    pub fn post(&mut self, slot: u32, request: u32)
        requires slot { slot < MAX_REQUESTS }
        requires request { 0 < request }
        ensures posts { RecordPosts self.old (slot, request) self.new }
        ensures setting { self.new.core.setting ≡ self.old.core.setting }
        ensures goes { MayGoOn thread_calls self.old.core.loop self.old.ran → MayGoOn thread_calls self.new.core.loop self.new.ran }
    {
        self.core.post(slot, request);
    }

    /// The meter to which the loop's tasks report the fuel that they use.
    pub fn meter(&self) -> Result<Meter, AllocError> {
        self.account.meter()
    }

    /// Steps until the timers phase is entered or the loop has ended, and reports each step. How it ended, if it did.
    pub fn step_through<R: Wait, W: Watch>(
        &mut self,
        rt: &R,
        loop_no: u32,
        watch: &W,
    ) -> Result<Option<LoopEnding>, AllocError>
        requires goes { MayGoOn thread_calls self.old.core.loop self.old.ran }
        ensures moves { MovesAlone self.old self.new }
        ensures setting { self.new.core.setting ≡ self.old.core.setting }
        ensures comes { IfOk result (λ ended. EndsOrGoesOn thread_calls ended self.new.core.loop self.new.ran) }
        ensures at_turn { IfOk result (λ ended. ended ≡ None → IsAtTurn self.new.core.loop.state) }
        ensures drained { IfOk result (λ ended. ended ≡ None → self.new.ran ≤ self.old.ran → IsDrained thread_calls self.new.core.loop) }
    {
        for _ in rt.forever() {
            let did = self.step()?;
            let is_turn = enters_timers(&did);
            let ended = self.ended(&did);
            watch.step(rt, loop_no, did.whole(), self.core.emits());
            match ended {
                Some(ending) => return Ok(Some(ending)),
                None if is_turn => return Ok(None),
                None => {}
            }
        }
        unreachable!()
    }

    /// One step of the loop. If memory for what a callback may emit is refused, it takes none. Inlined, so that of its did
    /// nothing is built but what is read.
    #[inline(always)]
    fn step(&mut self) -> Result<BareDid, AllocError>
        requires room { self.old.ran < MAX_CALLBACKS }
        ensures moves { MovesAlone self.old self.new }
        ensures setting { self.new.core.setting ≡ self.old.core.setting }
        ensures over { IfOk result (λ did. did ≡ BareDid.Over → self.new.core.loop.state.status ≡ status.Over) }
        ensures more { IfOk result (λ did. self.old.ran ≤ self.new.ran) }
        ensures drains { IfOk result (λ did. self.new.ran ≤ self.old.ran → Drains thread_calls self.old.core.loop → Drains thread_calls self.new.core.loop) }
        ensures at_turn { IfOk result (λ did. enters_timers did ≡ true → IsAtTurn self.new.core.loop.state) }
        ensures drained { IfOk result (λ did. enters_timers did ≡ true → Drains thread_calls self.old.core.loop → IsDrained thread_calls self.new.core.loop) }
    {
        self.emits.reserve(MAX_EMITS)?;
        let did = self.core.step_bare();
        self.account.saw(&did);
        if let BareDid::Ran { .. } = did {
            self.ran += 1;
            append(&mut self.emits, self.core.emits());
        }
        Ok(did)
    }

    /// How the loop has ended with a step, if it has: it is over; the callback failed; or it was the last that the loop
    /// may run.
    fn ended(&self, did: &BareDid) -> Option<LoopEnding>
        requires { did.now ≡ BareDid.Over → self.now.core.loop.state.status ≡ status.Over }
        ensures { StepsTo thread_calls result self.now.core.loop self.now.ran }
    {
        match did {
            BareDid::Over => Some(LoopEnding::Over),
            _ if self.core.failed() => Some(LoopEnding::Failed),
            _ if self.ran == MAX_CALLBACKS => Some(LoopEnding::Limit),
            _ => None,
        }
    }

    /// Whether the loop has something to do at its cached now, with no reply.
    pub fn is_due(&self) -> bool {
        matches!(self.core.hint(), Hint::Now)
    }

    /// Raises the clock to the next timer, and reports it. Without one the loop waits for ever.
    pub fn wait<R: Wait, W: Watch>(&mut self, rt: &R, loop_no: u32, watch: &W) -> Option<LoopEnding>
        requires goes { MayGoOn thread_calls self.old.core.loop self.old.ran }
        requires at_turn { IsAtTurn self.old.core.loop.state }
        requires none { self.old.core.loop.state.requests.outstanding ≡ [] }
        requires drained { IsDrained thread_calls self.old.core.loop }
        ensures moves { MovesAlone self.old self.new }
        ensures setting { self.new.core.setting ≡ self.old.core.setting }
        ensures comes { EndsOrGoesOn thread_calls result self.new.core.loop self.new.ran }
    {
        match self.core.hint() {
            Hint::Now => None,
            Hint::For(ms) => {
                let clock = self.pass(ms);
                watch.clock(rt, loop_no, clock);
                None
            }
            Hint::Forever => Some(LoopEnding::Waiting),
        }
    }

    /// Raises the clock by so many milliseconds, for which the loop has nothing to do. To which moment.
    fn pass(&mut self, ms: u64) -> u64
        requires none { self.old.core.loop.state.requests.outstanding ≡ [] }
        requires still { self.old.core.loop.state.clock ≡ self.old.core.loop.state.now }
        requires hint { hint_of self.old.core.loop.state ≡ Hint.For ms }
        ensures moves { MovesAlone self.old self.new }
        ensures setting { self.new.core.setting ≡ self.old.core.setting }
        ensures goes { MayGoOn thread_calls self.old.core.loop self.old.ran → MayGoOn thread_calls self.new.core.loop self.new.ran }
    {
        let clock = self.core.clock(0);
        let moment = clock.saturating_add(ms);
        self.core.clock(moment);
        moment
    }

    /// Whether requests are outstanding.
    pub fn has_requests(&self) -> bool
        ensures { OnFalse result (self.now.core.loop.state.requests.outstanding ≡ []) }
    {
        self.core.outstanding() > 0
    }

    /// What the loop has done, and how it ended, with its seat of the claims.
    pub fn into_served(self, loop_no: u32, ending: LoopEnding) -> (Served, LoopSeat)
        requires loop_no { loop_no ≡ self.core.setting.loop_no }
        requires ends { EndsBy thread_calls ending self.core.loop self.ran }
        requires done { ∥ HasDone thread_calls self.core.setting self.core.loop self.ran self.emits.items ∥₁ }
        ensures loop_no { result.0.loop_no ≡ loop_no }
        ensures ending { result.0.ending ≡ ending }
        ensures emits { result.0.emits ≡ self.entry.emits }
        ensures seat { result.1 ≡ self.entry.core.loop.shared.loop_seat }
    {
        let trail = last_trail(&self.core);
        let mut account = self.account;
        account.count_refused(self.core.refused());
        let served = Served {
            loop_no,
            ending,
            emits: self.emits,
            account,
            trail,
        };
        let (seat, _) = self.core.into_shared().into_seats();
        (served, seat)
    }
}
