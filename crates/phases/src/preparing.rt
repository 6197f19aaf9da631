// A step as far as it comes before its callback runs.

ghost use Rattle.std.specs.Prelude.{◌≡◌, [], false, All, IfNone, IfSome, MatchBool};
ghost use Rattle.phases.specs.Bare.{whole_did};
ghost use Rattle.phases.specs.Inner.Preparing.{Prepares, CanRunIn, LeavesFront, RunsUnfailed};
ghost use Rattle.phases.specs.Outside.{is_failed};
ghost use Rattle.phases.specs.Ready.{IsReady, Spares};
ghost use Rattle.phases.specs.Step.{StepsWith, ListStep, NextPhase, EntryStep, CallsHandle, RanNone, Skips, is_as_listed};

use crate::callback::{CallbackArgs, Prepared, PreparedCallback};
use crate::did::BareDid;
use crate::entry::{Entry, Status};
use crate::loop_core::LoopCore;
use crate::shared::Shared;
use events::phase::EntryKind;
use handles::Kind;
use imports::EntryPoint;
use syntax::types::Value;

impl<B: Shared + Drop> LoopCore<B> {
    /// Goes as far as `step` does before its callback runs.
    pub(crate) fn prepare(&mut self) -> Prepared
        ensures step { Prepares B.calls self.old.setting (StepsWith B.calls self.old.setting self.old.loop) result self.new.loop }
        ensures fits { CanRunIn self.old.setting.loaded.contents result }
        ensures unfailed { RunsUnfailed result self.new.loop.state.status }
        ensures setting { self.new.setting ≡ self.old.setting }
    {
        match self.host.state.status() {
            Status::Running => self.prepare_front(),
            Status::Over => Prepared::Did(BareDid::Over),
            Status::Failed => Prepared::Did(BareDid::Failed),
        }
    }

    fn prepare_front(&mut self) -> Prepared
        requires { is_failed self.old.loop.state.status ≡ false }
        ensures step { Prepares B.calls self.old.setting (ListStep B.calls self.old.setting self.old.loop self.old.loop.state.list) result self.new.loop }
        ensures fits { CanRunIn self.old.setting.loaded.contents result }
        ensures unfailed { RunsUnfailed result self.new.loop.state.status }
        ensures setting { self.new.setting ≡ self.old.setting }
    {
        let Some(entry) = self.take_front() else {
            return Prepared::Did(self.turn());
        };
        self.prepare_entry(entry)
    }

    /// Takes the front entry off the list.
    #[inline(always)]
    pub(crate) fn take_front(&mut self) -> Option<Entry>
        ensures front { IfSome result (λ entry. LeavesFront self.old.setting.loaded.contents self.old.loop entry self.new.loop) }
        ensures none { IfNone result ((self.new.loop ≡ self.old.loop) × (self.old.loop.state.list ≡ [])) }
        ensures setting { self.new.setting ≡ self.old.setting }
        ensures status { self.new.loop.state.status ≡ self.old.loop.state.status }
    {
        let Some(entry) = self.host.state.front() else {
            return None;
        };
        self.host.state.pop();
        Some(entry)
    }

    /// The list is used up: the loop is over, or enters the next phase.
    #[inline(always)]
    pub(crate) fn turn(&mut self) -> BareDid
        requires empty { self.old.loop.state.list ≡ [] }
        ensures step { NextPhase B.calls self.old.setting self.old.loop (whole_did result) [] self.new.loop }
        ensures none { RanNone (whole_did result) }
        ensures setting { self.new.setting ≡ self.old.setting }
    {
        self.host.state.turn()
    }

    /// Each arm returns by itself, as in `BareDid::whole`.
    pub(crate) fn prepare_entry(&mut self, entry: Entry) -> Prepared
        requires ready { IsReady self.old.setting.loaded.contents self.old.loop.state entry }
        requires apart { All (Spares entry) self.old.loop.state.list }
        ensures step { Prepares B.calls self.old.setting (EntryStep B.calls self.old.setting self.old.loop entry) result self.new.loop }
        ensures fits { CanRunIn self.old.setting.loaded.contents result }
        ensures setting { self.new.setting ≡ self.old.setting }
        ensures status { self.new.loop.state.status ≡ self.old.loop.state.status }
    {
        match entry {
            Entry::Start => return self.prepare_start(),
            Entry::Main => return self.prepare_main(),
            Entry::Timer { handle, start } => return self.prepare_timer(handle, start),
            Entry::Idle { handle, start } => {
                return self.prepare_listed(Kind::Idle, EntryKind::Idle, handle, start);
            }
            Entry::Check { handle, start } => {
                return self.prepare_listed(Kind::Check, EntryKind::Check, handle, start);
            }
            Entry::After { request } => return self.prepare_after_work(request),
            Entry::Async { async_no } => return self.prepare_async(async_no),
            Entry::Close { handle } => return self.prepare_close(handle),
        }
    }

    #[tactic(auto, using(crate::proofs::LoopsKeep::start_bare))]
    fn prepare_start(&self) -> Prepared
        requires ready { IsReady self.now.setting.loaded.contents self.now.loop.state Entry.Start }
        ensures step { Prepares B.calls self.now.setting (EntryStep B.calls self.now.setting self.now.loop Entry.Start) result self.now.loop }
        ensures fits { CanRunIn self.now.setting.loaded.contents result }
    {
        let Some(function) = self.linked.valid().contents().start else {
            unreachable!();
        };
        Prepared::bare(EntryKind::Start, function)
    }

    fn prepare_main(&self) -> Prepared
        requires ready { IsReady self.now.setting.loaded.contents self.now.loop.state Entry.Main }
        ensures step { Prepares B.calls self.now.setting (EntryStep B.calls self.now.setting self.now.loop Entry.Main) result self.now.loop }
        ensures fits { CanRunIn self.now.setting.loaded.contents result }
    {
        let Some(function) = self.linked.entry(EntryPoint::Main) else {
            unreachable!();
        };
        Prepared::bare(EntryKind::Main, function)
    }

    fn prepare_timer(&mut self, handle: u32, start: u64) -> Prepared
        ensures step { Prepares B.calls self.old.setting (EntryStep B.calls self.old.setting self.old.loop (Entry.Timer handle start)) result self.new.loop }
        ensures fits { CanRunIn self.old.setting.loaded.contents result }
        ensures setting { self.new.setting ≡ self.old.setting }
        ensures status { self.new.loop.state.status ≡ self.old.loop.state.status }
    {
        match self.host.state.fire(handle, start) {
            Some(function) => return Prepared::of_handle(EntryKind::Timer, handle, function),
            None => return Prepared::skipped(EntryKind::Timer, handle),
        }
    }

    /// An idle or a check handle.
    fn prepare_listed(&self, listed: Kind, kind: EntryKind, handle: u32, start: u64) -> Prepared
        ensures step { Prepares B.calls self.now.setting (λ did made new. MatchBool (is_as_listed listed self.now.loop.state.roster handle start)
            (CallsHandle B.calls self.now.setting self.now.loop self.now.loop.state.roster kind handle did made new)
            (Skips B.calls self.now.setting self.now.loop kind handle did made new)) result self.now.loop }
        ensures fits { CanRunIn self.now.setting.loaded.contents result }
    {
        match self.host.state.listed_function(listed, handle, start) {
            Some(function) => return Prepared::of_handle(kind, handle, function),
            None => return Prepared::skipped(kind, handle),
        }
    }

    fn prepare_after_work(&mut self, request: u32) -> Prepared
        requires ready { IsReady self.old.setting.loaded.contents self.old.loop.state (Entry.After request) }
        requires apart { All (Spares (Entry.After request)) self.old.loop.state.list }
        ensures step { Prepares B.calls self.old.setting (EntryStep B.calls self.old.setting self.old.loop (Entry.After request)) result self.new.loop }
        ensures fits { CanRunIn self.old.setting.loaded.contents result }
        ensures setting { self.new.setting ≡ self.old.setting }
        ensures status { self.new.loop.state.status ≡ self.old.loop.state.status }
    {
        let Some(function) = self.linked.entry(EntryPoint::AfterWork) else {
            unreachable!();
        };
        let completion = self.host.state.take_request(self.host.alloc, request);
        let args = [
            Value::I32(request),
            Value::I32(completion.kind),
            Value::I32(completion.code),
        ];
        Prepared::Runs(PreparedCallback {
            kind: EntryKind::After,
            number: request,
            function,
            args: CallbackArgs::first(3, args),
            reply: Some(completion.bytes),
        })
    }

    /// What waits at the async is taken first; where that is nothing, no callback runs.
    fn prepare_async(&mut self, async_no: u32) -> Prepared
        requires ready { IsReady self.old.setting.loaded.contents self.old.loop.state (Entry.Async async_no) }
        ensures step { Prepares B.calls self.old.setting (EntryStep B.calls self.old.setting self.old.loop (Entry.Async async_no)) result self.new.loop }
        ensures fits { CanRunIn self.old.setting.loaded.contents result }
        ensures setting { self.new.setting ≡ self.old.setting }
        ensures status { self.new.loop.state.status ≡ self.old.loop.state.status }
    {
        let Some(handle) = self.host.state.async_at(async_no) else {
            unreachable!();
        };
        let kind = EntryKind::Async;
        let Some((active, function)) = self.host.state.active_async(async_no) else {
            return Prepared::skipped(kind, handle);
        };
        if self.host.shared.take(async_no) == 0 {
            return Prepared::skipped(kind, active);
        }
        Prepared::of_handle(kind, active, function)
    }

    /// The handle is removed first.
    fn prepare_close(&mut self, handle: u32) -> Prepared
        requires ready { IsReady self.old.setting.loaded.contents self.old.loop.state (Entry.Close handle) }
        requires apart { All (Spares (Entry.Close handle)) self.old.loop.state.list }
        ensures step { Prepares B.calls self.old.setting (EntryStep B.calls self.old.setting self.old.loop (Entry.Close handle)) result self.new.loop }
        ensures fits { CanRunIn self.old.setting.loaded.contents result }
        ensures setting { self.new.setting ≡ self.old.setting }
        ensures status { self.new.loop.state.status ≡ self.old.loop.state.status }
    {
        let function = self.host.state.finish_closing(handle);
        Prepared::of_handle(EntryKind::Close, handle, function)
    }
}
