// The state of a loop, and what it answers to its guest.

ghost use Rattle.std.specs.Prelude.{◌≡◌, ◌↔◌, ◌≤◌, ◌<◌, ◌^◌, ◌||◌, if◌then◌else◌, [], Some, None, true, false, length, max, IsTrue, IfOk, IfErr, IfSome, OnOk, option_map};
ghost use Rattle.limits.specs.declared.TheConstants.{MAX_EMITS};
ghost use Rattle.handles.specs.Table.{empty_table};
ghost use Rattle.instance.specs.Reads.{with_bytes};
ghost use Rattle.order.specs.Uv.Bytes.{input_length, copied_in};
ghost use Rattle.order.specs.Orders.{order_of, end_of};
ghost use Rattle.phases.specs.Fitting.{AllRight};
ghost use Rattle.phases.specs.Host.{with_requests, emitted_in};
ghost use Rattle.phases.specs.Outside.{after_clock, next_order_of, CancelIn, RequestIn, TakesReplyTo, answered};
ghost use Rattle.phases.specs.Ready.{Grows};
ghost use Rattle.phases.specs.Settings.{setting_of};
ghost use Rattle.phases.specs.View.{AreOpenedUpTo};
ghost use Rattle.phases.specs.Requests.{IsLowestOpen};
ghost use Rattle.phases.specs.PhaseList.{is_alive, hint_of, until_due, first_list, IsAlive, IsHint};
ghost use Rattle.phases.specs.State.{opening};

use crate::emits::Emits;
use crate::entries::Entries;
use crate::entry::Status;
use crate::requests::Requests;
use crate::roster::Roster;
use crate::setting::Setting;
use crate::shared::Shared;
use crate::work::ask;
use events::did::Hint;
use events::phase::Phase;
use handles::{Handles, Kind};
use instance::memory::Memory;
use order::uv::answers::{NONE_LEFT, NOT_HERE};
use order::uv::calls::copy_in;
use order::{Order, Reply};
use std::alloc::{AllocError, Global};
use std::marker::Model;

/// The state of a loop.
#[derive(Drop)]
pub struct LoopState {
    pub(crate) roster: Roster,
    pub(crate) requests: Requests,
    pub(crate) clock: u64,
    pub(crate) time: u64,
    pub(crate) phase: Phase,
    pub(crate) entries: Entries,
    pub(crate) reply: Option<Vec<u8>>,
    pub(crate) emits: Emits,
    pub(crate) status: Status,
}

impl Model for LoopState {
    ghost use Rattle.std.specs.Coded.{codes};
    ghost use Rattle.std.specs.Prelude.{option_map};
    ghost use Rattle.phases.specs.Inner.Codes.{roster_code, requests_code};
    ghost use Rattle.phases.specs.State.{State};

    ghost Value = { State };

    ghost coded = { Prim.hlevel (codes, roster_code, requests_code) };

    ghost use Rattle.phases.specs.Fitting.{IsShort};

    ghost view = { λ a. record {
      roster = a.roster;
      requests = a.requests;
      clock = a.clock;
      now = a.time;
      phase = a.phase;
      list = a.entries;
      reply = option_map (λ v. v.items) a.reply;
      emits = a.emits.kept;
      status = a.status;
    } };

    ghost invariant = { λ a. IsShort (option_map (λ v. v.items) a.reply) };
}

/// A call of its own, so that its caller has one case to prove, not one for each way through.
fn any(a: bool, b: bool, c: bool) -> bool
    ensures { result ≡ (a || (b || c)) }
{
    a || b || c
}

fn until(busy: bool, due: Option<u64>, now: u64) -> Hint
    ensures { result ≡ (if busy then Hint.Now else until_due due now) }
{
    match due {
        _ if busy => Hint::Now,
        None => Hint::Forever,
        Some(due) if due <= now => Hint::Now,
        Some(due) => Hint::For(due - now),
    }
}

impl LoopState {
    /// A loop that has done nothing, over an empty table and the functions that callbacks name.
    pub fn new(
        alloc: Global,
        handles: Handles,
        callbacks: Vec<Option<u32>>,
        start: bool,
        main: bool,
    ) -> Result<Self, AllocError>
        requires { handles ≡ empty_table }
        ensures { IfOk result (λ made. made ≡ opening (record { handles = empty_table; asyncs = []; closing = []; callbacks = callbacks.items }) (first_list start main)) }
    {
        let emits = Emits::new(alloc)?;
        let entries = Entries::first(alloc, start, main)?;
        Ok(LoopState {
            roster: Roster::new(handles, callbacks),
            requests: Requests::new(alloc),
            clock: 0,
            time: 0,
            phase: Phase::Begin,
            entries,
            reply: None,
            emits,
            status: Status::Running,
        })
    }

    /// How many bytes an after-work callback may read.
    pub fn input_length(&self) -> u32
        ensures { result ≡ input_length self.now.reply }
    {
        match &self.reply {
            Some(bytes) => bytes.len() as u32,
            None => NOT_HERE,
        }
    }

    /// Copies bytes of a reply into the guest's memory.
    #[inline(never)]
    pub fn copy_in(&self, to: u32, from: u32, count: u32, memory: &mut Memory) -> u32
        ensures answer { result ≡ (copied_in self.now.reply to from count memory.old.bytes).0 }
        ensures memory { memory.new ≡ with_bytes (copied_in self.now.reply to from count memory.old.bytes).1 memory.old }
    {
        match &self.reply {
            Some(bytes) => copy_in(bytes.as_slice(), to, from, count, memory),
            None => NOT_HERE,
        }
    }

    /// Puts out a number.
    pub fn emit(&mut self, value: u64) -> u32
        ensures answer { result ≡ (emitted_in value self.old).0 }
        ensures state { self.new ≡ (emitted_in value self.old).1 }
    {
        if self.emits.kept.is_full() {
            self.emits.refuse();
            return NONE_LEFT;
        }
        self.emits.kept.push(value);
        0
    }

    /// What the last callback emitted.
    pub fn emits(&self) -> &[u64]
        ensures value { result.now ≡ self.now.emits }
        ensures few { length result.now ≤ MAX_EMITS }
    {
        self.emits.kept.as_slice()
    }

    /// How many numbers all callbacks were refused. No clause speaks of it.
    pub fn refused(&self) -> u64 {
        self.emits.refused
    }

    /// Raises the clock to a moment, unless the loop has failed, and answers it.
    pub fn raise(&mut self, ms: u64) -> u64
        ensures state { self.new ≡ after_clock self.old ms }
        ensures clock { result ≡ self.new.clock }
    {
        if self.status != Status::Failed {
            self.clock = self.clock.max(ms);
        }
        self.clock
    }

    /// The order of the lowest request that is not handed out. A failed loop hands out none.
    pub fn next_order(&mut self) -> Option<Order>
        ensures order { option_map order_of result ≡ (next_order_of self.old).0 }
        ensures state { self.new ≡ (next_order_of self.old).1 }
        ensures lowest { IfSome result (λ o. IsLowestOpen o.request self.old.requests) }
        ensures number { IfSome result (λ o. 0 < o.request) }
        ensures grows { Grows self.old self.new }
    {
        self.requests.keeps();
        match self.status {
            Status::Failed => None,
            Status::Running | Status::Over => self.requests.next(),
        }
    }

    /// Takes a reply whose order is, in every field, that of a request that is neither answered nor cancelled, unless
    /// the loop has failed. Else the reply comes back.
    pub fn accept(&mut self, reply: Reply) -> Result<(), Reply>
        ensures taken { OnOk result (TakesReplyTo (order_of reply.order) self.old) }
        ensures answered { OnOk result (self.new ≡ with_requests self.old (answered self.old.requests (order_of reply.order) (end_of reply.outcome))) }
        ensures refused { IfErr result (λ other. (other ≡ reply) × (self.new ≡ self.old) × (TakesReplyTo (order_of reply.order) self.old → ⊥)) }
    {
        match self.status {
            Status::Failed => Err(reply),
            Status::Running | Status::Over => self.requests.answer(reply),
        }
    }

    /// Cancels a request: -22 where it is not outstanding or cancelled already, -16 where it is answered or started,
    /// and -1 where the loop has failed.
    pub fn cancel<B: Shared>(&mut self, shared: &mut B, number: u32) -> u32
        ensures { CancelIn B.calls self.old.status (self.old, shared.old) number result (self.new, shared.new) }
    {
        match self.status {
            Status::Failed => NOT_HERE,
            Status::Running | Status::Over => self.requests.cancel(shared, number),
        }
    }

    /// A request of the loop's owner, answered as a guest's on these bytes; -1 where the loop is over or has failed.
    pub fn request<B: Shared>(
        &mut self,
        alloc: Global,
        setting: &Setting,
        shared: &mut B,
        op: u32,
        bytes: &[u8],
    ) -> u32
        requires { AreOpenedUpTo self.old.requests.last (B.calls.view shared.old) }
        ensures { RequestIn B.calls (setting_of setting.now) self.old.status (self.old, shared.old) op bytes.now result (self.new, shared.new) }
    {
        match self.status {
            Status::Running => ask(alloc, setting, &mut self.requests, shared, op, bytes),
            Status::Over | Status::Failed => NOT_HERE,
        }
    }

    /// How many requests are outstanding. What is answered is what the request's own order gives, or that there was no
    /// memory.
    pub fn outstanding(&self) -> usize
        ensures count { result ≡ length self.now.requests.outstanding }
        ensures right { AllRight self.now.requests }
    {
        self.requests.len()
    }

    /// Whether there is an active handle, an outstanding request or a closing handle.
    #[tactic(auto, unfolding(crate::specs::PhaseList::is_alive))]
    pub fn is_alive(&self) -> bool
        ensures value { result ≡ is_alive self.now }
        ensures means { IsTrue (is_alive self.now) ↔ IsAlive self.now }
    {
        self.roster.keeps();
        let requests = !self.requests.is_empty();
        let closing = !self.roster.closing().is_empty();
        any(self.roster.has_active(), requests, closing)
    }

    /// How long the loop has nothing to do.
    pub fn hint(&self) -> Hint
        ensures value { result ≡ hint_of self.now }
        ensures means { IsHint self.now result }
    {
        self.roster.keeps();
        self.listed_hint()
    }

    /// The hint, by the lists of the phases.
    #[tactic(auto, unfolding(crate::specs::PhaseList::hint_of))]
    fn listed_hint(&self) -> Hint
        ensures { result ≡ hint_of self.now }
    {
        let over = !self.is_alive();
        let idle = self.roster.has(Kind::Idle);
        let closing = !self.roster.closing().is_empty();
        let settled = self.requests.has_settled();
        let busy = any(over, idle, closing || settled);
        until(busy, self.roster.nearest(), self.time)
    }
}
