//! One event loop.

ghost use Rattle.std.specs.Prelude.{◌≡◌, ◌↔◌, ◌≤◌, List, false, codes, length, ◌<◌, IsTrue, IfNone, IfOk, IfSome, option_map};
ghost use Rattle.std.proofs.Props.{props};
ghost use Rattle.std.specs.Arc.{arc_value};
ghost use Rattle.std.specs.Int.{w32, cast_unsigned};
ghost use Rattle.limits.specs.declared.TheConstants.{MAX_ASYNCS, MAX_DEPTH, MAX_EMITS, MAX_REQUESTS};
ghost use Rattle.instance.specs.Fresh.{IsFresh};
ghost use Rattle.order.specs.Orders.{order_of};
ghost use Rattle.phases.specs.Fitting.{AllRight};
ghost use Rattle.phases.specs.Accepting.{Accepts};
ghost use Rattle.phases.specs.Outside.{after_clock, is_failed, next_order_of, CancelsLoop, RequestsLoop, StartsBeside, SendsBeside, PostsLoop};
ghost use Rattle.phases.specs.Guests.{GuestCall};
ghost use Rattle.phases.specs.Inner.Preparing.{CanCallBack, RunsCallback};
ghost use Rattle.order.specs.Runnable.{CanRun};
ghost use Rattle.phases.specs.PhaseList.{begin_list, hint_of, is_alive, IsAlive, IsHint};
ghost use Rattle.phases.specs.Bare.{whole_did};
ghost use Rattle.phases.specs.Keeping.{KeepsLoop};
ghost use Rattle.phases.specs.Settings.{setting_of};
ghost use Rattle.phases.specs.Requests.{IsLowestOpen};
ghost use Rattle.phases.specs.Roster.{opening_roster};
ghost use Rattle.phases.specs.State.{opening};
ghost use Rattle.phases.specs.Step.{ListStep, LoopStep};
ghost use Rattle.phases.specs.Stopping.{LoopStopsAt};
ghost use Rattle.phases.specs.View.{new_view};

use crate::callback::{Prepared, PreparedCallback};
use crate::did::BareDid;
use crate::entry::Status;
use crate::loop_host::LoopHost;
use crate::opening::opened;
use crate::setting::Setting;
use crate::shared::{Beside, Posting, Shared};
use events::did::{Hint, StepDid};
use events::ended::Ended;
use events::settings::LoopSettings;
use imports::Linked;
use instance::stack::{CallStack, Stop};
use instance::state::State;
use interp::call::FunctionCall;
use interp::invoke::invoke_bare;
use order::laws::imports_are_named;
use order::{Order, Reply};
use std::alloc::{AllocError, Global};
use std::marker::Model;
use std::sync::Arc;

/// What became of a reply that was offered to a loop.
#[derive(Drop)]
pub enum Accepted {
    /// It was taken: its order is, in every field, that of a request that was neither answered nor cancelled.
    Accepted,
    /// It was not, and comes back.
    Stranger(Reply),
}

/// One event loop, over what it shares with other threads.
///
/// Contracts see what it is made of, and the loop as it stands.
#[derive(Drop)]
pub struct LoopCore<B: Shared + Drop> {
    pub(crate) linked: Arc<Linked, Global>,
    pub(crate) store: State,
    pub(crate) stack: CallStack,
    pub(crate) host: LoopHost<B>,
    ghost stopped: { IfSome stack (λ sites. ∥ LoopStopsAt B.calls (setting_of host.setting) store sites ∥₁) } by { Prim.hlevel props },
    ghost unfailed: { IfNone stack (is_failed host.state.status ≡ false) } by { Prim.hlevel props },
}

impl<B: Shared + Drop> Model for LoopCore<B> {
    ghost use Rattle.std.specs.Coded.{codes};
    ghost use Rattle.handles.specs.Inner.Codes.{table_code};
    ghost use Rattle.phases.specs.Inner.Codes.{roster_code, requests_code};
    ghost use Rattle.syntax.specs.Loaded.{loaded_coded};
    ghost use Rattle.phases.specs.State.{Core};
    ghost use Rattle.phases.specs.Settings.{setting_of};
    ghost use Rattle.phases.specs.Keeping.{KeepsLoop};
    ghost use Rattle.std.specs.Arc.{arc_value};

    ghost Value = { Core B };

    ghost coded = { Prim.hlevel (codes, loaded_coded, roster_code, requests_code, B.code) };

    ghost view = { λ a. record { setting = setting_of a.host.setting; loop = record { state = a.host.state; store = a.store; shared = a.host.shared } } };

    ghost invariant = { λ a. KeepsLoop (arc_value a.linked) (setting_of a.host.setting) a.host.state a.store };
}

impl<B: Shared + Drop> LoopCore<B> {
    /// A loop that has done nothing, over a new instance of its module. Callbacks and work functions may use so much
    /// fuel each, and so many calls may stand open in them, 1 to `MAX_DEPTH`. `AllocError` comes only where memory was
    /// refused, or from `Handles::new`.
    pub fn new(
        alloc: Global,
        linked: Arc<Linked, Global>,
        shared: B,
        loop_no: u32,
        fuel: u64,
        work_fuel: u64,
        depth: u32,
    ) -> Result<Self, AllocError>
        requires depth { (1 ≤ depth) × (depth ≤ MAX_DEPTH) }
        requires shared { B.calls.view shared ≡ new_view loop_no }
        ensures setting { IfOk result (λ core. core.setting ≡ record { loaded = arc_value linked; loop_no = loop_no; fuel = fuel; work_fuel = work_fuel; depth = depth }) }
        ensures state { IfOk result (λ core. core.loop.state ≡ opening (opening_roster (arc_value linked).contents) (begin_list (arc_value linked).contents)) }
        ensures store { IfOk result (λ core. IsFresh (arc_value linked).contents core.loop.store) }
        ensures shared { IfOk result (λ core. core.loop.shared ≡ shared) }
    {
        let setting = Setting {
            linked: Arc::try_clone(&linked)?,
            loop_no,
            settings: LoopSettings {
                fuel,
                work_fuel,
                depth,
            },
        };
        let (instance, state) = opened(alloc, &linked)?;
        let (store, mut stack) = instance.into_parts();
        // nothing has run on it
        stack.last = None;
        let host = LoopHost {
            alloc,
            setting,
            state,
            shared,
            copied: 0,
        };
        Ok(LoopCore {
            linked,
            store,
            stack,
            host,
        })
    }

    /// One step: the front entry of the phase's list runs or is skipped, or, where the list is used up, the loop is
    /// over or enters the next phase. Nothing changes once it is over or has failed.
    pub fn step(&mut self) -> StepDid
        ensures step { LoopStep B.calls self.old.setting self.old.loop result self.new.loop }
        ensures setting { self.new.setting ≡ self.old.setting }
    {
        self.step_bare().whole()
    }

    /// One step, with no room for results in its answer. Inlined, so that a phase with no entries costs no call.
    #[inline(always)]
    pub fn step_bare(&mut self) -> BareDid
        ensures step { LoopStep B.calls self.old.setting self.old.loop (whole_did result) self.new.loop }
        ensures setting { self.new.setting ≡ self.old.setting }
    {
        match self.host.state.status() {
            Status::Running => self.go_on(),
            Status::Over => BareDid::Over,
            Status::Failed => BareDid::Failed,
        }
    }

    /// Each arm returns by itself, as in `BareDid::whole`.
    #[inline(always)]
    fn go_on(&mut self) -> BareDid
        requires { is_failed self.old.loop.state.status ≡ false }
        ensures step { (made : List GuestCall) × ListStep B.calls self.old.setting self.old.loop self.old.loop.state.list (whole_did result) made self.new.loop }
        ensures setting { self.new.setting ≡ self.old.setting }
    {
        let Some(entry) = self.take_front() else {
            return self.turn();
        };
        match self.prepare_entry(entry) {
            Prepared::Did(did) => return did,
            Prepared::Runs(callback) => return self.call(callback),
        }
    }

    fn call(&mut self, callback: PreparedCallback) -> BareDid
        requires fits { CanCallBack self.old.setting.loaded.contents callback }
        requires unfailed { is_failed self.old.loop.state.status ≡ false }
        ensures run { (made : List GuestCall) × RunsCallback B.calls self.old.setting self.old.loop callback (whole_did result) made self.new.loop }
        ensures setting { self.new.setting ≡ self.old.setting }
    {
        let PreparedCallback {
            kind,
            number,
            function,
            args,
            reply,
        } = callback;
        self.host.state.begin_callback(reply);
        let LoopSettings { fuel, depth, .. } = self.host.setting.settings;
        imports_are_named(&self.linked);
        let valid = self.linked.valid();
        let call = FunctionCall {
            function,
            args: args.as_slice(),
            fuel,
            depth,
        };
        let ended = invoke_bare(
            valid,
            &mut self.store,
            &mut self.stack,
            &mut self.host,
            &call,
        );
        self.host.state.end_callback(ended);
        BareDid::Ran {
            kind,
            number,
            ended,
        }
    }

    /// The bytes of its module.
    pub fn module_bytes(&self) -> &[u8]
        ensures { result.now ≡ self.now.setting.loaded.bytes }
    {
        self.linked.valid().module().bytes()
    }

    /// Its module.
    pub fn linked(&self) -> &Linked
        ensures { result.now ≡ self.now.setting.loaded }
    {
        &self.linked
    }

    /// Its instance as the last callback left it, however that ended.
    pub fn store(&self) -> &State
        ensures { result.now ≡ self.now.loop.store }
    {
        &self.store
    }

    /// What the last callback emitted, `MAX_EMITS` values at most.
    pub fn emits(&self) -> &[u64]
        ensures emits { result.now ≡ self.now.loop.state.emits }
        ensures few { length result.now ≤ MAX_EMITS }
    {
        self.host.state.emits()
    }

    /// How many numbers the loop's callbacks were refused in all, since a callback may emit `MAX_EMITS`. No clause speaks of it.
    pub fn refused(&self) -> u64 {
        self.host.state.refused()
    }

    /// Raises the clock to a moment in milliseconds, and answers the clock after it. A smaller moment leaves it, and
    /// so does a loop that has failed.
    pub fn clock(&mut self, ms: u64) -> u64
        ensures core { self.new.loop ≡ record self.old.loop { state = after_clock self.old.loop.state ms } }
        ensures clock { result ≡ self.new.loop.state.clock }
        ensures setting { self.new.setting ≡ self.old.setting }
    {
        self.host.state.raise(ms)
    }

    /// Where the last callback stopped, unless it returned: at which operation, and within which calls. A loop that has failed has a stop.
    pub fn last_stop(&self) -> Option<Stop<'_>>
        ensures some { IfSome result (λ sites. ∥ LoopStopsAt B.calls self.now.setting self.now.loop.store sites ∥₁) }
        ensures none { IfNone result (is_failed self.now.loop.state.status ≡ false) }
    {
        self.stack.last_stop()
    }

    /// Whether a callback did not return, after which the loop does nothing more.
    pub fn failed(&self) -> bool
        ensures { result ≡ is_failed self.now.loop.state.status }
    {
        matches!(self.host.state.status(), Status::Failed)
    }

    /// How many requests are outstanding. What is answered is what the request's own order gives, or that there was
    /// no memory.
    pub fn outstanding(&self) -> usize
        ensures count { result ≡ length self.now.loop.state.requests.outstanding }
        ensures right { AllRight self.now.loop.state.requests }
    {
        self.host.state.outstanding()
    }

    /// Ends the loop and gives what it shares, as it stands.
    pub fn into_shared(self) -> B
        ensures { result ≡ self.loop.shared }
    {
        let LoopCore {
            linked: _,
            store: _,
            stack: _,
            host,
        } = self;
        host.into_shared()
    }

    /// Its module, its instance's state, and its host, with which its callbacks run.
    pub(crate) fn into_parts(self) -> (Arc<Linked, Global>, State, LoopHost<B>)
        ensures keeps { KeepsLoop (arc_value result.0) self.setting self.loop.state self.loop.store }
        ensures store { result.1 ≡ self.loop.store }
        ensures setting { setting_of result.2.setting ≡ self.setting }
        ensures state { result.2.state ≡ self.loop.state }
        ensures shared { result.2.shared ≡ self.loop.shared }
    {
        let LoopCore {
            linked,
            store,
            stack: _,
            host,
        } = self;
        (linked, store, host)
    }

    /// The order of the lowest request that is open and not handed out, which is then handed out. A failed loop has
    /// none. No memory is taken.
    pub fn next_order(&mut self) -> Option<Order>
        ensures order { option_map order_of result ≡ (next_order_of self.old.loop.state).0 }
        ensures core { self.new.loop ≡ record self.old.loop { state = (next_order_of self.old.loop.state).1 } }
        ensures lowest { IfSome result (λ o. IsLowestOpen o.request self.old.loop.state.requests) }
        ensures own { IfSome result (λ o. o.loop_no ≡ self.old.setting.loop_no) }
        ensures slot { IfSome result (λ o. o.slot < MAX_REQUESTS) }
        ensures number { IfSome result (λ o. 0 < o.request) }
        ensures can_run { IfSome result (λ o. CanRun (order_of o)) }
        ensures setting { self.new.setting ≡ self.old.setting }
    {
        self.host.state.next_order()
    }

    /// Takes a reply whose order is, in every field and the module's bytes included, that of a request that is
    /// neither answered nor cancelled, unless the loop has failed. Else the reply comes back.
    pub fn accept(&mut self, reply: Reply) -> Accepted
        ensures told { Accepts reply self.old.loop result self.new.loop }
        ensures setting { self.new.setting ≡ self.old.setting }
    {
        match self.host.state.accept(reply) {
            Ok(()) => Accepted::Accepted,
            Err(reply) => Accepted::Stranger(reply),
        }
    }

    /// Cancels a request: 0, or -22 where it is not outstanding or cancelled already, -16 where it is answered or
    /// started, and -1 on a loop that has failed.
    pub fn cancel(&mut self, request: u32) -> i32
        ensures told { CancelsLoop B.calls self.old.loop request (cast_unsigned w32 result) self.new.loop }
        ensures setting { self.new.setting ≡ self.old.setting }
    {
        self.cancel_number(request).cast_signed()
    }

    fn cancel_number(&mut self, request: u32) -> u32
        ensures told { CancelsLoop B.calls self.old.loop request result self.new.loop }
        ensures setting { self.new.setting ≡ self.old.setting }
    {
        let LoopHost { state, shared, .. } = &mut self.host;
        state.cancel(shared, request)
    }

    /// A request of the loop's owner. It goes the way of the guest's own: `next_order` hands it out, and `uv_after_work` is
    /// given its number. It answers what `queue_work` answers to a guest whose whole memory is these bytes: the request's
    /// number, or -38, -22, -11, -28 or -12; and -1 on a loop that is over or has failed. Nothing changes where it is below 0.
    pub fn request(&mut self, op: u32, bytes: &[u8]) -> i32
        ensures told { RequestsLoop B.calls self.old.setting self.old.loop op bytes.now (cast_unsigned w32 result) self.new.loop }
        ensures setting { self.new.setting ≡ self.old.setting }
    {
        self.request_number(op, bytes).cast_signed()
    }

    fn request_number(&mut self, op: u32, bytes: &[u8]) -> u32
        ensures told { RequestsLoop B.calls self.old.setting self.old.loop op bytes.now result self.new.loop }
        ensures setting { self.new.setting ≡ self.old.setting }
    {
        // by its contract the module is linked
        let _valid = self.linked.valid();
        let alloc = self.host.alloc;
        let LoopHost {
            setting,
            state,
            shared,
            ..
        } = &mut self.host;
        state.request(alloc, setting, shared, op, bytes)
    }

    /// How long the loop has nothing to do, by its cached now.
    pub fn hint(&self) -> Hint
        ensures value { result ≡ hint_of self.now.loop.state }
        ensures means { IsHint self.now.loop.state result }
    {
        self.host.state.hint()
    }

    /// Whether the loop has an active handle, an outstanding request or a closing handle.
    pub fn alive(&self) -> bool
        ensures value { result ≡ is_alive self.now.loop.state }
        ensures means { IsTrue (is_alive self.now.loop.state) ↔ IsAlive self.now.loop.state }
    {
        self.host.state.is_alive()
    }
}

impl<B: Beside + Drop> LoopCore<B> {
    /// A worker's start of a request, where all stands in one thread; whether it is started by this call. Slots are
    /// below `MAX_REQUESTS`.
    pub fn start(&mut self, slot: u32, request: u32) -> bool
        requires { slot < MAX_REQUESTS }
        ensures told { StartsBeside B.others self.old.loop slot request result self.new.loop }
        ensures setting { self.new.setting ≡ self.old.setting }
    {
        self.host.shared.start(slot, request)
    }

    /// Another's send to an async, where all stands in one thread; `false` where its sends are used up. Asyncs are
    /// below `MAX_ASYNCS`.
    pub fn sent(&mut self, async_no: u32) -> bool
        requires { async_no < MAX_ASYNCS }
        ensures told { SendsBeside B.others self.old.loop async_no result self.new.loop }
        ensures setting { self.new.setting ≡ self.old.setting }
    {
        self.host.shared.sent(async_no)
    }
}

impl<B: Posting + Drop> LoopCore<B> {
    /// Posts a request, whose order was handed out, so that it can be started. Whether it is posted by this call. Slots are
    /// below `MAX_REQUESTS`, and requests are numbered from 1.
    pub fn post(&mut self, slot: u32, request: u32) -> bool
        requires slot { slot < MAX_REQUESTS }
        requires request { 0 < request }
        ensures told { PostsLoop B.posts self.old.loop slot request result self.new.loop }
        ensures setting { self.new.setting ≡ self.old.setting }
    {
        self.host.shared.post(slot, request)
    }
}
