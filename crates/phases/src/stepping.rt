// How a loop's state goes from phase to phase, and from entry to entry.
//
// Eight methods only pass on to entries, roster or requests: `LoopCore` is seen through a model, and a loop's state is too,
// and a call of the part itself would open both at once.

ghost use Rattle.std.specs.Prelude.{◌≡◌, ◌≤◌, ◌<◌, [], length, Some, None, true, false, drop, slice_get, IfSome, IfNone, MatchOption, option_map};
ghost use Rattle.handles.specs.Table.{IsClosing, IsOpen, record_of, after_again};
ghost use Rattle.events.specs.Bare.{whole as whole_ended, whole_ending};
ghost use Rattle.events.specs.declared.did.StepDid.TheVariants as step_did;
ghost use Rattle.limits.specs.declared.TheConstants.{MAX_ASYNCS, MAX_BYTES};
ghost use Rattle.phases.specs.Fitting.{IsShort};
ghost use Rattle.phases.specs.Host.{with_roster, with_requests};
ghost use Rattle.phases.specs.PhaseList.{is_active_handle, is_alive, phase_list};
ghost use Rattle.phases.specs.Bare.{whole_did};
ghost use Rattle.phases.specs.Inner.Stage.{completion_in};
ghost use Rattle.syntax.specs.declared.contents.Contents.{Contents};
ghost use Rattle.phases.specs.Ready.{AreReady, IsActiveAsync};
ghost use Rattle.phases.specs.Requests.{request_of, without_request, is_settled, completion_of};
ghost use Rattle.phases.specs.Roster.{async_handle, with_handles, without_handle};
ghost use Rattle.phases.specs.Step.{turn, in_phase, now_in, moment_in, begun, finished, returns, is_as_listed, handle_function};

use crate::did::BareDid;
use crate::entry::{Entry, Status};
use crate::loop_state::LoopState;
use crate::stage::Completion;
use events::ended::{BareEnded, BareEnding};
use events::phase::Phase;
use handles::Kind;
use std::alloc::Global;

impl LoopState {
    /// Whether the loop goes on.
    pub fn status(&self) -> Status
        ensures { result ≡ self.now.status }
    {
        self.status
    }

    /// The entry that comes next in the phase's list.
    pub fn front(&self) -> Option<Entry>
        ensures { result ≡ slice_get self.now.list 0 }
    {
        self.entries.front()
    }

    /// Takes the front entry off the list.
    pub fn pop(&mut self)
        ensures { self.new ≡ record self.old { list = drop 1 self.old.list } }
    {
        self.entries.pop();
    }

    /// Where the list is used up: the loop is over, or enters the next phase. Inlined as far as a step's caller, so that no did
    /// is built there of which but a part is read.
    #[inline(always)]
    pub fn turn(&mut self) -> BareDid
        ensures did { whole_did result ≡ (turn self.old).0 }
        ensures state { self.new ≡ (turn self.old).1 }
        ensures ready { (m : Contents) → self.old.list ≡ [] → AreReady m self.new }
    {
        self.roster.keeps();
        self.requests.keeps();
        if self.phase.may_end() && !self.is_alive() {
            self.status = Status::Over;
            return BareDid::Over;
        }
        self.enter(self.phase.next())
    }

    #[inline(always)]
    fn enter(&mut self, phase: Phase) -> BareDid
        ensures did { whole_did result ≡ step_did.Entered phase (now_in self.old phase) }
        ensures state { self.new ≡ record (in_phase self.old phase) { list = phase_list (in_phase self.old phase) phase } }
    {
        self.phase = phase;
        if phase == Phase::Timers {
            self.time = self.clock;
        }
        self.list();
        BareDid::Entered {
            phase,
            now: self.time,
        }
    }

    /// Lists anew what is to come in the phase that the loop is in.
    #[inline(always)]
    fn list(&mut self)
        ensures { self.new ≡ record self.old { list = phase_list self.old self.old.phase } }
    {
        let roster = &self.roster;
        let entries = &mut self.entries;
        match self.phase {
            Phase::Begin => entries.clear(),
            Phase::Timers => entries.list_handles(Kind::Timer, roster.due(self.time)),
            Phase::Idle => entries.list_handles(Kind::Idle, roster.of_kind(Kind::Idle)),
            Phase::Poll => entries.list_poll(self.requests.as_slice(), roster),
            Phase::Check => entries.list_handles(Kind::Check, roster.of_kind(Kind::Check)),
            Phase::Closing => entries.list_closing(roster.closing()),
        }
    }

    /// The callback of a handle that is still as it was listed.
    pub fn listed_function(&self, kind: Kind, handle: u32, start: u64) -> Option<u32>
        ensures some { IfSome result (λ f. (is_as_listed kind self.now.roster handle start ≡ true) × (handle_function self.now.roster handle ≡ Some f)) }
        ensures none { IfNone result (is_as_listed kind self.now.roster handle start ≡ false) }
    {
        self.roster.listed_function(kind, handle, start)
    }

    /// The callback of a timer that is still as it was listed. The timer is then inactive, or started again where
    /// it repeats.
    pub fn fire(&mut self, handle: u32, start: u64) -> Option<u32>
        ensures some { IfSome result (λ f. (is_as_listed Kind.Timer self.old.roster handle start ≡ true) × (handle_function self.old.roster handle ≡ Some f)) }
        ensures none { IfNone result (is_as_listed Kind.Timer self.old.roster handle start ≡ false) }
        ensures fired { IfSome result (λ _. self.new ≡ with_roster self.old (with_handles self.old.roster (after_again self.old.roster.handles handle self.old.«now»))) }
        ensures skipped { IfNone result (self.new ≡ self.old) }
        ensures requests { self.new.requests ≡ self.old.requests }
        ensures status { self.new.status ≡ self.old.status }
    {
        self.roster.fire(handle, start, self.time)
    }

    /// The handle of an async, until that is removed.
    pub fn async_at(&self, async_no: u32) -> Option<u32>
        ensures value { result ≡ async_handle self.now.roster async_no }
        ensures below { IfSome result (λ _. async_no < MAX_ASYNCS) }
    {
        self.roster.async_at(async_no)
    }

    /// The handle of an async, if it is active, and its callback.
    pub fn active_async(&self, async_no: u32) -> Option<(u32, u32)>
        ensures none { IfNone result (is_active_handle self.now.roster.handles (async_handle self.now.roster async_no) ≡ false) }
        ensures some { IfSome result (λ found. IsActiveAsync self.now.roster async_no found) }
    {
        self.roster.active_async(async_no)
    }

    /// Removes a closing handle, and answers the callback of its close.
    pub fn finish_closing(&mut self, handle: u32) -> u32
        requires { IsClosing self.old.roster.handles handle }
        ensures function { handle_function self.old.roster handle ≡ Some result }
        ensures removed { self.new ≡ with_roster self.old (without_handle self.old.roster handle) }
    {
        self.roster.finish_closing(handle)
    }

    /// Removes a request that is answered or cancelled, and returns what came of it.
    pub fn take_request(&mut self, alloc: Global, number: u32) -> Completion
        requires { MatchOption (request_of self.old.requests number) ⊥ (λ r. is_settled r.stage ≡ true) }
        ensures completion { MatchOption (request_of self.old.requests number) ⊥ (λ r. completion_of r.stage ≡ Some (completion_in result)) }
        ensures removed { self.new ≡ with_requests self.old (without_request self.old.requests number) }
        ensures short { length (completion_in result).bytes ≤ MAX_BYTES }
    {
        self.requests.take(alloc, number)
    }

    /// A callback begins, which may read these bytes, and has emitted nothing.
    pub fn begin_callback(&mut self, reply: Option<Vec<u8>>)
        requires { IsShort (option_map (λ v. v.items) reply) }
        ensures { self.new ≡ begun self.old (option_map (λ v. v.items) reply) }
    {
        put(&mut self.reply, reply);
        self.emits.kept.clear();
    }

    /// A callback has ended. Where it did not return, the loop has failed.
    pub fn end_callback(&mut self, ended: BareEnded)
        ensures { self.new ≡ finished self.old (whole_ended ended) }
    {
        put(&mut self.reply, None);
        if !returned(ended.ending) {
            self.status = Status::Failed;
        }
    }
}

/// Puts a reply in a place. Where there is none and was none, as mostly, nothing is written.
fn put(place: &mut Option<Vec<u8>>, reply: Option<Vec<u8>>)
    ensures { place.new ≡ reply }
{
    if place.is_some() || reply.is_some() {
        *place = reply;
    }
}

fn returned(ending: BareEnding) -> bool
    ensures { result ≡ returns (whole_ending ending) }
{
    matches!(ending, BareEnding::Return)
}
