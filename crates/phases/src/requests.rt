// The outstanding requests of a loop.

ghost use Rattle.std.specs.Prelude.{◌≡◌, ◌≢◌, ◌+◌, ◌<◌, ◌≤◌, ◌==◌, ◌↔◌, [], Some, None, true, false, length, find, filter, slice_get, not};
ghost use Rattle.std.specs.Prelude.{IfErr, OnOk, OnErr, IfSome, IfNone, MatchOption, MatchResult, option_map};
ghost use Rattle.std.specs.List.{list_any};
ghost use Rattle.limits.specs.declared.TheConstants.{MAX_BYTES, MAX_REQUEST_NUMBER};
ghost use Rattle.order.specs.Orders.{order_of, end_of};
ghost use Rattle.phases.specs.Host.{Cancels};
ghost use Rattle.phases.specs.Outside.{IsOneOf, next_of, answered};
ghost use Rattle.phases.specs.Inner.Stage.{completion_in};
ghost use Rattle.phases.specs.Requests.{no_requests, has_number, request_of, with_work, without_request, is_free_slot, is_settled, is_open_stage, settled, completion_of};
ghost use Rattle.phases.specs.Fitting.{AllRight, AreKept};
ghost use Rattle.phases.specs.PhaseList.{is_empty};

use crate::request::Request;
use crate::shared::Shared;
use crate::stage::{CancelState, Completion};
use limits::MAX_REQUESTS;
use order::laws::ends_are_short;
use order::uv::answers::{BUSY, INVALID};
use order::{Order, Reply};
use std::alloc::{AllocError, Global};
use std::marker::Model;

/// The outstanding requests of a loop by their numbers, which rise, and the last number that was given.
#[derive(Drop)]
pub struct Requests {
    items: Vec<Request>,
    last: u32,
}

impl Model for Requests {
    ghost use Rattle.phases.specs.Requests.{Requests as Value_of};
    ghost use Rattle.phases.specs.Inner.Codes.{requests_code};
    ghost use Rattle.phases.specs.Fitting.{AreKept};

    ghost Value = { Value_of };

    ghost coded = { requests_code };

    ghost view = { λ a. record { outstanding = a.items.items; last = a.last } };

    ghost invariant = { λ a. AreKept (record { outstanding = a.items.items; last = a.last }) };
}

/// Where the request of a number stands.
fn position_of(items: &[Request], number: u32) -> Option<usize>
    ensures none { IfNone result (find (has_number number) items.now ≡ None) }
    ensures some { IfSome result (λ at. (r : Request) × (slice_get items.now at ≡ Some r) × (find (has_number number) items.now ≡ Some r)) }
    ensures within { IfSome result (λ at. at < length items.now) }
{
    for (at, item) in items.iter().enumerate() {
        if item.number() == number {
            return Some(at);
        }
    }
    None
}

/// Where the lowest request stands that is not handed out.
fn lowest_open(items: &[Request]) -> Option<usize>
    ensures none { IfNone result (find (λ r. is_open_stage r.stage) items.now ≡ None) }
    ensures some { IfSome result (λ at. (r : Request) × (slice_get items.now at ≡ Some r) × (find (λ r. is_open_stage r.stage) items.now ≡ Some r)) }
    ensures within { IfSome result (λ at. at < length items.now) }
{
    for (at, item) in items.iter().enumerate() {
        if item.is_open() {
            return Some(at);
        }
    }
    None
}

fn uses_slot(items: &[Request], slot: u32) -> bool
    ensures { result ≡ list_any (λ r. r.order.slot == slot) items.now }
{
    for item in items {
        if item.slot() == slot {
            return true;
        }
    }
    false
}

fn any_settled(items: &[Request]) -> bool
    ensures { result ≡ not (is_empty (filter (λ r. is_settled r.stage) items.now)) }
{
    for item in items {
        if item.is_settled() {
            return true;
        }
    }
    false
}

/// A slot that no request uses.
fn free_slot(items: &[Request]) -> u32
    requires { length items.now < MAX_REQUESTS }
    ensures below { result < MAX_REQUESTS }
    ensures free { list_any (λ r. r.order.slot == result) items.now ≡ false }
{
    for slot in 0..MAX_REQUESTS as u32 {
        if !uses_slot(items, slot) {
            return slot;
        }
    }
    unreachable!()
}

impl Requests {
    /// No request. Nor is there room for any: most loops of a process ask for nothing.
    pub fn new(alloc: Global) -> Self
        ensures { result ≡ no_requests }
    {
        Requests {
            items: Vec::new(alloc),
            last: 0,
        }
    }

    /// What the requests keep. Nothing is done: this is a law.
    pub fn keeps(&self)
        ensures { AreKept self.now }
    {
        // a field that is read opens the model, and with it what the fields keep
        let _ = &self.items;
    }

    /// How many requests are outstanding.
    pub fn len(&self) -> usize
        ensures value { result ≡ length self.now.outstanding }
        ensures most { result ≤ MAX_REQUESTS }
        ensures right { AllRight self.now }
    {
        self.items.len()
    }

    /// Whether no request is outstanding.
    pub fn is_empty(&self) -> bool
        ensures { result ≡ is_empty self.now.outstanding }
    {
        self.items.is_empty()
    }

    /// The last number that was given, 0 where none was.
    pub fn last(&self) -> u32
        ensures value { result ≡ self.now.last }
        ensures most { result ≤ MAX_REQUEST_NUMBER }
    {
        self.last
    }

    /// The requests.
    pub fn as_slice(&self) -> &[Request]
        ensures value { result.now ≡ self.now.outstanding }
        ensures few { length result.now ≤ MAX_REQUESTS }
    {
        self.items.as_slice()
    }

    /// Whether a request is answered or cancelled.
    pub fn has_settled(&self) -> bool
        ensures { result ≡ not (is_empty (settled self.now)) }
    {
        any_settled(self.items.as_slice())
    }

    /// A slot that no request uses. Where requests end in the order of their numbers, it is the first that is tried.
    pub fn free_slot(&self) -> u32
        requires { length self.now.outstanding < MAX_REQUESTS }
        ensures below { result < MAX_REQUESTS }
        ensures free { is_free_slot self.now result ≡ true }
    {
        let items = self.items.as_slice();
        let next = self.last % MAX_REQUESTS as u32;
        if uses_slot(items, next) {
            return free_slot(items);
        }
        next
    }

    /// Opens a request under the next number, with the copy of its order that will be handed out. An error comes where memory is
    /// refused, and then nothing is changed.
    pub fn open(&mut self, order: Order, copy: Order) -> Result<(), AllocError>
        requires room { length self.old.outstanding < MAX_REQUESTS }
        requires number { order.request ≡ self.old.last + 1 }
        requires slot { order.slot < MAX_REQUESTS }
        requires last { self.old.last + 1 ≤ MAX_REQUEST_NUMBER }
        requires same { order_of copy ≡ order_of order }
        ensures opened { OnOk result (self.new ≡ with_work self.old (order_of order)) }
        ensures refused { OnErr result (self.new ≡ self.old) }
    {
        let number = order.request;
        self.items.push(Request::new(order, copy))?;
        self.last = number;
        Ok(())
    }

    /// Cancels a request: -22 where it is not outstanding or cancelled already, -16 where it is answered or started.
    pub fn cancel<B: Shared>(&mut self, shared: &mut B, number: u32) -> u32
        ensures { Cancels B.calls (self.old, shared.old) number result (self.new, shared.new) }
    {
        let Some(at) = position_of(self.items.as_slice(), number) else {
            return INVALID;
        };
        match self.items[at].cancel_state() {
            CancelState::Unknown => INVALID,
            CancelState::Answered => BUSY,
            CancelState::Pending { slot } => {
                if !shared.cancel(slot, number) {
                    return BUSY;
                }
                let request = &mut self.items[at];
                request.cancel();
                0
            }
        }
    }

    /// Hands out the order of the lowest request that is not handed out.
    pub fn next(&mut self) -> Option<Order>
        ensures order { option_map order_of result ≡ (next_of self.old).0 }
        ensures requests { self.new ≡ (next_of self.old).1 }
    {
        let at = lowest_open(self.items.as_slice())?;
        let item = &mut self.items[at];
        item.hand_out()
    }

    /// Takes the answer to a request that is neither answered nor cancelled, if the reply's order is the request's
    /// in every field. Else the reply comes back.
    pub fn answer(&mut self, reply: Reply) -> Result<(), Reply>
        ensures taken { OnOk result (IsOneOf (order_of reply.order) self.old) }
        ensures answered { OnOk result (self.new ≡ answered self.old (order_of reply.order) (end_of reply.outcome)) }
        ensures refused { IfErr result (λ other. (other ≡ reply) × (self.new ≡ self.old) × (IsOneOf (order_of reply.order) self.old → ⊥)) }
    {
        let Some(at) = position_of(self.items.as_slice(), reply.order.request) else {
            return Err(reply);
        };
        let item = &mut self.items[at];
        if item.is_settled() || !item.is_for(&reply.order) {
            return Err(reply);
        }
        item.answer(reply.into_outcome());
        Ok(())
    }

    /// Removes a request that is answered or cancelled, and returns what came of it.
    pub fn take(&mut self, alloc: Global, number: u32) -> Completion
        requires { MatchOption (request_of self.old number) ⊥ (λ r. is_settled r.stage ≡ true) }
        ensures completion { MatchOption (request_of self.old number) ⊥ (λ r. completion_of r.stage ≡ Some (completion_in result)) }
        ensures short { length (completion_in result).bytes ≤ MAX_BYTES }
        ensures removed { self.new ≡ without_request self.old number }
    {
        ends_are_short();
        let Some(at) = position_of(self.items.as_slice(), number) else {
            unreachable!();
        };
        self.items.remove(at).into_completion(alloc)
    }
}
