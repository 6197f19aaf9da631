// The requests of a loop, and what it shares with other threads.

ghost use Rattle.std.specs.Prelude.{◌≡◌, ◌<◌, ◌≤◌, ◌+◌, length};
ghost use Rattle.imports.specs.Uv.{name_of_entry};
ghost use Rattle.phases.specs.Host.{Sends, QueuesWork, OpensNext, OpensIfRoom};
ghost use Rattle.phases.specs.PhaseList.{exports};
ghost use Rattle.phases.specs.Settings.{setting_of};
ghost use Rattle.phases.specs.View.{AreOpenedUpTo};

use crate::requests::Requests;
use crate::roster::Roster;
use crate::setting::Setting;
use crate::shared::Shared;
use imports::{EntryPoint, Linked};
use instance::memory::Memory;
use limits::{MAX_BYTES, MAX_REQUEST_NUMBER, MAX_REQUESTS};
use order::uv::answers::{INVALID, NO_MEMORY, NO_ROOM, NO_SUCH_EXPORT, NONE_LEFT, OUTSIDE_MEMORY};
use std::alloc::Global;

/// Sends to an async of the loop: -22 where the handle is none, -28 where the loop's sends are used up.
#[inline(never)]
pub fn send<B: Shared>(roster: &Roster, shared: &mut B, handle: u32) -> u32
    ensures { Sends B.calls roster.now shared.old handle result shared.new }
{
    let Some(async_no) = roster.async_number(handle) else {
        return INVALID;
    };
    if !shared.send(async_no) {
        return NONE_LEFT;
    }
    0
}

/// What a guest asks for: the operation, and where its bytes lie in the guest's memory.
#[derive(Clone, Copy, Debug)]
pub struct Asked {
    pub op: u32,
    pub place: u32,
    pub count: u32,
}

fn exports(linked: &Linked, entry: EntryPoint) -> bool
    ensures { result ≡ exports linked.now.contents (name_of_entry entry) }
{
    linked.entry(entry).is_some()
}

/// Asks for work: -38 where `uv_work` or `uv_after_work` is not exported, -22 where the bytes are more than `MAX_BYTES`,
/// -14 where they lie outside the memory, -11 where `MAX_REQUESTS` requests are outstanding, -28 where the numbers are used
/// up, and -12 if memory is refused. Nothing is changed then. Else the request's number.
#[inline(always)]
pub fn queue_work<B: Shared>(
    alloc: Global,
    setting: &Setting,
    requests: &mut Requests,
    shared: &mut B,
    asked: Asked,
    memory: &mut Memory,
) -> u32
    requires { AreOpenedUpTo requests.old.last (B.calls.view shared.old) }
    ensures queued { QueuesWork B.calls (setting_of setting.now) memory.old.bytes (requests.old, shared.old) asked.op asked.place asked.count result (requests.new, shared.new) }
    ensures memory { memory.new ≡ memory.old }
{
    let linked: &Linked = &setting.linked;
    if !(exports(linked, EntryPoint::Work) && exports(linked, EntryPoint::AfterWork)) {
        return NO_SUCH_EXPORT;
    }
    if asked.count as usize > MAX_BYTES {
        return INVALID;
    }
    let Some(bytes) = memory.read(asked.place as usize, asked.count as usize) else {
        return OUTSIDE_MEMORY;
    };
    open_next(alloc, setting, requests, shared, asked.op, bytes)
}

/// Asks for work as `queue_work` does, on bytes that stand nowhere in the guest's memory.
#[tactic(auto, using(crate::proofs::OwnersRequests::queues))]
pub fn ask<B: Shared>(
    alloc: Global,
    setting: &Setting,
    requests: &mut Requests,
    shared: &mut B,
    op: u32,
    bytes: &[u8],
) -> u32
    requires { AreOpenedUpTo requests.old.last (B.calls.view shared.old) }
    ensures { QueuesWork B.calls (setting_of setting.now) bytes.now (requests.old, shared.old) op 0 (length bytes.now) result (requests.new, shared.new) }
{
    let linked: &Linked = &setting.linked;
    if !(exports(linked, EntryPoint::Work) && exports(linked, EntryPoint::AfterWork)) {
        return NO_SUCH_EXPORT;
    }
    if bytes.len() > MAX_BYTES {
        return INVALID;
    }
    open_next(alloc, setting, requests, shared, op, bytes)
}

#[inline(never)]
fn open_next<B: Shared>(
    alloc: Global,
    setting: &Setting,
    requests: &mut Requests,
    shared: &mut B,
    op: u32,
    bytes: &[u8],
) -> u32
    requires { AreOpenedUpTo requests.old.last (B.calls.view shared.old) }
    ensures { OpensNext B.calls (setting_of setting.now) (requests.old, shared.old) op bytes.now result (requests.new, shared.new) }
{
    if requests.len() == MAX_REQUESTS {
        return NO_ROOM;
    }
    if requests.last() == MAX_REQUEST_NUMBER {
        return NONE_LEFT;
    }
    open(alloc, setting, requests, shared, op, bytes)
}

fn open<B: Shared>(
    alloc: Global,
    setting: &Setting,
    requests: &mut Requests,
    shared: &mut B,
    op: u32,
    bytes: &[u8],
) -> u32
    requires opened { AreOpenedUpTo requests.old.last (B.calls.view shared.old) }
    requires room { length requests.old.outstanding < MAX_REQUESTS }
    requires numbers { requests.old.last + 1 ≤ MAX_REQUEST_NUMBER }
    ensures { OpensIfRoom B.calls (setting_of setting.now) (requests.old, shared.old) op bytes.now result (requests.new, shared.new) }
{
    let request = requests.last() + 1;
    let slot = requests.free_slot();
    let Ok((order, copy)) = setting.orders(alloc, request, slot, op, bytes) else {
        return NO_MEMORY;
    };
    let Ok(()) = requests.open(order, copy) else {
        return NO_MEMORY;
    };
    shared.open(slot, request);
    request
}
