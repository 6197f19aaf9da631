// The host of a loop's callbacks.

ghost use Rattle.std.specs.Prelude.{◌≡◌, ◌+◌, Some, map, length};
ghost use Rattle.valid.specs.Typing.{type_of};
ghost use Rattle.reduction.specs.Hosting.{Answers};
ghost use Rattle.imports.specs.Uv.{type_of_call};
ghost use Rattle.handles.specs.Table.{saturated};
ghost use Rattle.handles.specs.declared.handle.Kind.TheVariants as kind;
ghost use Rattle.phases.specs.Hosting.{Replies};
ghost use Rattle.phases.specs.Roster.{started_in, closed_in};
ghost use Rattle.phases.specs.Settings.{setting_of};
ghost use Rattle.phases.specs.View.{AreOpenedUpTo};

use crate::loop_state::LoopState;
use crate::roster::Roster;
use crate::setting::Setting;
use crate::shared::Shared;
use crate::work::{Asked, queue_work, send};
use handles::Kind;
use imports::Call;
use instance::memory::Memory;
use interp::host::{Args, Host};
use order::uv::answers::NOT_HERE;
use order::uv::calls::{called, counted, one, one_wide, three, two, two_and_two_wide};
use std::alloc::Global;
use syntax::types::Value;

/// The host of a loop's callbacks: what the loop is made of, its state, what it shares with other threads, and how many bytes its calls
/// have copied.
#[derive(Drop)]
pub struct LoopHost<B: Shared + Drop> {
    pub(crate) alloc: Global,
    pub(crate) setting: Setting,
    pub(crate) state: LoopState,
    pub(crate) shared: B,
    pub(crate) copied: u64,
    pub ghost opened: { AreOpenedUpTo state.requests.last (B.calls.view shared) },
}

impl<B: Shared + Drop> LoopHost<B> {
    /// What the loop shares, as it stands.
    pub(crate) fn into_shared(self) -> B
        ensures { result ≡ self.shared }
    {
        let LoopHost {
            alloc: _,
            setting: _,
            state: _,
            shared,
            copied: _,
        } = self;
        shared
    }
}

/// Starts an idle or a check handle.
fn start(roster: &mut Roster, kind: Kind, args: (u32, u32)) -> u32
    ensures answer { result ≡ (started_in kind args.0 args.1 0 0 roster.old).0 }
    ensures roster { roster.new ≡ (started_in kind args.0 args.1 0 0 roster.old).1 }
{
    let (handle, callback) = args;
    roster.start(kind, handle, callback, 0, 0)
}

/// Starts a timer that is due so long after now.
fn start_timer(roster: &mut Roster, now: u64, args: (u32, u32, u64, u64)) -> u32
    ensures answer { result ≡ (started_in kind.Timer args.0 args.1 (saturated (now + args.2)) args.3 roster.old).0 }
    ensures roster { roster.new ≡ (started_in kind.Timer args.0 args.1 (saturated (now + args.2)) args.3 roster.old).1 }
{
    let (handle, callback, timeout, repeat) = args;
    let due = now.saturating_add(timeout);
    roster.start(Kind::Timer, handle, callback, due, repeat)
}

/// Closes a handle.
fn close(roster: &mut Roster, args: (u32, u32)) -> u32
    ensures answer { result ≡ (closed_in args.0 args.1 roster.old).0 }
    ensures roster { roster.new ≡ (closed_in args.0 args.1 roster.old).1 }
{
    let (handle, callback) = args;
    roster.close(handle, callback)
}

/// What a loop answers to a function of "uv".
#[inline(always)]
fn answer<B: Shared>(
    alloc: Global,
    setting: &Setting,
    state: &mut LoopState,
    shared: &mut B,
    call: Call,
    args: &Args,
    memory: &mut Memory,
) -> Value
    requires opened { AreOpenedUpTo state.old.requests.last (B.calls.view shared.old) }
    requires typed { map type_of args.now ≡ (type_of_call call).params }
    ensures replies { Replies B.calls (setting_of setting.now) (state.old, shared.old) call args.now memory.old.bytes result memory.new.bytes (state.new, shared.new) }
    ensures typed { Answers (Some (type_of_call call)) (Some result) }
    ensures kept { length memory.new.bytes ≡ length memory.old.bytes }
    ensures limit { memory.new.limit ≡ memory.old.limit }
{
    let answer = match call {
        Call::Now => return Value::I64(state.time),
        Call::TimerInit => state.roster.init(Kind::Timer),
        Call::IdleInit => state.roster.init(Kind::Idle),
        Call::CheckInit => state.roster.init(Kind::Check),
        Call::TimerStart => start_timer(&mut state.roster, state.time, two_and_two_wide(args)),
        Call::TimerStop => state.roster.stop(Kind::Timer, one(args)),
        Call::IdleStop => state.roster.stop(Kind::Idle, one(args)),
        Call::CheckStop => state.roster.stop(Kind::Check, one(args)),
        Call::TimerAgain => state.roster.again(one(args), state.time),
        Call::IdleStart => start(&mut state.roster, Kind::Idle, two(args)),
        Call::CheckStart => start(&mut state.roster, Kind::Check, two(args)),
        Call::AsyncInit => state.roster.init_async(one(args)),
        Call::AsyncSend => send(&state.roster, shared, one(args)),
        Call::IsActive => state.roster.active_answer(one(args)),
        Call::Close => close(&mut state.roster, two(args)),
        Call::QueueWork => {
            let (op, place, count) = three(args);
            let asked = Asked { op, place, count };
            queue_work(alloc, setting, &mut state.requests, shared, asked, memory)
        }
        Call::Cancel => state.requests.cancel(shared, one(args)),
        Call::InLen => state.input_length(),
        Call::InCopy => {
            let (to, from, count) = three(args);
            state.copy_in(to, from, count, memory)
        }
        Call::OutSet => NOT_HERE,
        Call::Emit => state.emit(one_wide(args)),
    };
    Value::I32(answer)
}

impl<B: Shared + Drop> Host for LoopHost<B> {
    ghost use Rattle.phases.specs.Hosting.{Answered};
    ghost use Rattle.phases.specs.Settings.{setting_of};
    ghost use Rattle.order.specs.ImportTypes.{import_types};

    ghost types = { λ g. import_types (setting_of g.setting).loaded.contents };

    ghost moves = { Answered B.calls (λ g. setting_of g.setting) (λ g. (g.state, g.shared)) };

    ghost copied = { λ g. g.copied };

    fn copied(&self) -> u64 {
        self.copied
    }

    #[inline(always)]
    fn call(&mut self, import: u32, args: &Args, memory: &mut Memory) -> Option<Value> {
        let call = called(&self.setting.linked, import, args);
        let answer = answer(
            self.alloc,
            &self.setting,
            &mut self.state,
            &mut self.shared,
            call,
            args,
            memory,
        );
        self.copied = counted(self.copied, call, args, answer);
        Some(answer)
    }
}
