// One outstanding request.

ghost use Rattle.std.specs.Prelude.{◌≡◌, ◌↔◌, [], Some, true, IsTrue, MatchOption};
ghost use Rattle.phases.specs.Inner.Stage.{completion_in};
ghost use Rattle.order.specs.Orders.{order_of, end_of};
ghost use Rattle.phases.specs.Host.{stage_cancel_state};
ghost use Rattle.phases.specs.Requests.{Open, HandedOut, Answered, Cancelled, is_open_stage, is_settled, completion_of, end_completion};

use crate::completion_kind;
use crate::stage::{CancelState, Completion, Stage};
use order::uv::answers::{CANCELLED_CODE, NO_MEMORY};
use order::{Order, Outcome};
use std::alloc::Global;
use std::marker::Model;
use std::mem;

/// An outstanding request: its order, and how far it has come.
#[derive(Drop)]
pub struct Request {
    order: Order,
    stage: Stage,
}

impl Model for Request {
    ghost use Rattle.order.specs.Orders.{order_of};
    ghost use Rattle.phases.specs.Requests.{Request as Value_of};
    ghost use Rattle.phases.specs.Inner.Codes.{request_code};
    ghost use Rattle.phases.specs.Inner.Stage.{stage_of, IsCopyOf};

    ghost Value = { Value_of };

    ghost coded = { request_code };

    ghost view = { λ a. record { order = order_of a.order; stage = stage_of a.stage } };

    ghost invariant = { λ a. IsCopyOf (order_of a.order) a.stage };
}

impl Request {
    /// A request that is not handed out, with the copy of its order that will be.
    pub fn new(order: Order, copy: Order) -> Self
        requires { order_of copy ≡ order_of order }
        ensures { result ≡ record { order = order_of order; stage = Open } }
    {
        Request {
            order,
            stage: Stage::Open(copy),
        }
    }

    /// Its number.
    pub fn number(&self) -> u32
        ensures { result ≡ self.now.order.request }
    {
        self.order.request
    }

    /// Its slot.
    pub fn slot(&self) -> u32
        ensures { result ≡ self.now.order.slot }
    {
        self.order.slot
    }

    /// Whether it is not handed out yet.
    pub fn is_open(&self) -> bool
        ensures { result ≡ is_open_stage self.now.stage }
    {
        matches!(self.stage, Stage::Open(_))
    }

    /// Whether it is answered or cancelled.
    pub fn is_settled(&self) -> bool
        ensures { result ≡ is_settled self.now.stage }
    {
        matches!(self.stage, Stage::Answered(_) | Stage::Cancelled)
    }

    /// Whether it can be cancelled.
    pub fn cancel_state(&self) -> CancelState
        ensures { result ≡ stage_cancel_state self.now.order.slot self.now.stage }
    {
        match self.stage {
            Stage::Open(_) | Stage::HandedOut => CancelState::Pending {
                slot: self.order.slot,
            },
            Stage::Answered(_) => CancelState::Answered,
            Stage::Cancelled => CancelState::Unknown,
        }
    }

    /// Whether the order is this request's, in every field.
    pub fn is_for(&self, order: &Order) -> bool
        ensures { IsTrue result ↔ (self.now.order ≡ order_of order.now) }
    {
        self.order.is_same(order)
    }

    /// Hands its order out.
    pub fn hand_out(&mut self) -> Option<Order>
        requires { is_open_stage self.old.stage ≡ true }
        ensures order { MatchOption result ⊥ (λ order. order_of order ≡ self.old.order) }
        ensures request { self.new ≡ record self.old { stage = HandedOut } }
    {
        match mem::replace(&mut self.stage, Stage::HandedOut) {
            Stage::Open(order) => Some(order),
            _ => unreachable!(),
        }
    }

    /// A worker's answer was taken.
    pub fn answer(&mut self, outcome: Outcome)
        ensures { self.new ≡ record self.old { stage = Answered (end_of outcome) } }
    {
        self.stage = Stage::Answered(outcome);
    }

    /// It was cancelled.
    pub fn cancel(&mut self)
        ensures { self.new ≡ record self.old { stage = Cancelled } }
    {
        self.stage = Stage::Cancelled;
    }

    /// What its after-work callback gets.
    pub fn into_completion(self, alloc: Global) -> Completion
        requires { is_settled self.stage ≡ true }
        ensures { completion_of self.stage ≡ Some (completion_in result) }
    {
        let Request { order: _, stage } = self;
        match stage {
            Stage::Answered(outcome) => outcome_completion(alloc, outcome),
            Stage::Cancelled => Completion::without_bytes(
                alloc,
                completion_kind::CANCELLED,
                CANCELLED_CODE,
            ),
            Stage::Open(_) | Stage::HandedOut => unreachable!(),
        }
    }
}

fn outcome_completion(alloc: Global, outcome: Outcome) -> Completion
    ensures { completion_in result ≡ end_completion (end_of outcome) }
{
    match outcome {
        Outcome::Done(value, bytes) => Completion {
            kind: completion_kind::DONE,
            code: value,
            bytes,
        },
        Outcome::Trap(trap) => Completion::without_bytes(alloc, completion_kind::TRAP, trap.code()),
        Outcome::Depth => Completion::without_bytes(alloc, completion_kind::DEPTH, 0),
        Outcome::Spent => Completion::without_bytes(alloc, completion_kind::SPENT, 0),
        Outcome::NoMemory(_) => Completion::without_bytes(
            alloc,
            completion_kind::NO_MEMORY,
            NO_MEMORY,
        ),
    }
}

impl Completion {
    fn without_bytes(alloc: Global, kind: u32, code: u32) -> Completion
        ensures { completion_in result ≡ record { kind = kind; code = code; bytes = [] } }
    {
        Completion {
            kind,
            code,
            bytes: Vec::new(alloc),
        }
    }
}
