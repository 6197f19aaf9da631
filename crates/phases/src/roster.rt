// The handles of a loop.

ghost use Rattle.std.specs.Prelude.{◌≡◌, ◌≢◌, ◌<◌, ◌≤◌, [], Some, None, true, false, length, map, slice_get, IfSome, IfNone, MatchOption, IsSomeAnd, ◌⊎◌, ◌==◌, filter, not};
ghost use Rattle.std.specs.List.{list_any, position_or_len};
ghost use Rattle.handles.specs.Table.{empty_table, record_of, IsOpen, IsClosing, after_again, entry, due_list, kind_list, nearest_due};
ghost use Rattle.phases.specs.Roster.{callback_function, is_callback, is_open, is_open_of, async_number, async_handle, with_handles, with_made, without_handle};
ghost use Rattle.phases.specs.Roster.{is_handle, unless_handle, stopped_in, started_in, again_in, closed_in, active_answer, Makes, MakesAsync};
ghost use Rattle.phases.specs.PhaseList.{is_empty, has_active, active_asyncs, is_active_handle};
ghost use Rattle.phases.specs.Fitting.{has_duty, RosterIsKept};
ghost use Rattle.phases.specs.Ready.{IsActiveAsync};
ghost use Rattle.phases.specs.Step.{is_as_listed, handle_function};

use arrayvec::ArrayVec;
use handles::{Handles, Kind, ListPlace, Record};
use limits::{MAX_ASYNCS, MAX_HANDLES};
use order::uv::answers::{INVALID, NO_ROOM, NONE_LEFT};
use std::marker::Model;

/// The handles of a loop: the closing ones in the order of their closing, the table, the functions that callbacks name, and the asyncs
/// by number. The fields stand so that what each turn reads lies side by side: the lengths of both arrays, but not their places.
#[derive(Drop)]
pub struct Roster {
    closing: ArrayVec<u32, MAX_HANDLES>,
    handles: Handles,
    callbacks: Vec<Option<u32>>,
    asyncs: ArrayVec<Option<u32>, MAX_ASYNCS>,
}

impl Model for Roster {
    ghost use Rattle.phases.specs.Roster.{Roster as Value_of};
    ghost use Rattle.phases.specs.Inner.Codes.{roster_code};
    ghost use Rattle.phases.specs.Fitting.{RosterIsKept};

    ghost Value = { Value_of };

    ghost coded = { roster_code };

    ghost view = { λ a. record { handles = a.handles; asyncs = a.asyncs.items; closing = a.closing.items; callbacks = a.callbacks.items } };

    ghost invariant = { λ a. RosterIsKept (record { handles = a.handles; asyncs = a.asyncs.items; closing = a.closing.items; callbacks = a.callbacks.items }) };
}

impl Roster {
    /// No handle, over the functions that callbacks name.
    pub fn new(handles: Handles, callbacks: Vec<Option<u32>>) -> Self
        requires { handles ≡ empty_table }
        ensures { result ≡ record { handles = empty_table; asyncs = []; closing = []; callbacks = callbacks.items } }
    {
        Roster {
            closing: ArrayVec::new(),
            handles,
            callbacks,
            asyncs: ArrayVec::new(),
        }
    }

    /// What the handles keep. Nothing is done: this is a law.
    pub fn keeps(&self)
        ensures { RosterIsKept self.now }
    {
        // a field that is read opens the model, and with it what the fields keep
        let _ = &self.handles;
    }

    fn callback_at(&self, index: u32) -> Option<u32>
        ensures { result ≡ callback_function self.now.callbacks index }
    {
        function_at(self.callbacks.as_slice(), index)
    }

    /// The callback of a handle that was started or is closing.
    fn duty_function(&self, handle: u32, record: &Record) -> u32
        requires there { record_of self.now.handles handle ≡ Some record.now }
        requires duty { has_duty record.now ≡ true }
        ensures { handle_function self.now handle ≡ Some result }
    {
        let Some(function) = function_at(self.callbacks.as_slice(), record.callback) else {
            unreachable!();
        };
        function
    }

    fn is_callback(&self, index: u32) -> bool
        ensures { result ≡ is_callback self.now index }
    {
        self.callback_at(index).is_some()
    }

    fn is_open(&self, handle: u32) -> bool
        ensures value { result ≡ is_open self.now handle }
        ensures open { result ≡ true → IsOpen self.now.handles handle }
    {
        match self.handles.get(handle) {
            Some(record) => !record.closing,
            None => false,
        }
    }

    fn is_open_of(&self, kind: Kind, handle: u32) -> bool
        ensures value { result ≡ is_open_of kind self.now handle }
        ensures open { result ≡ true → IsOpen self.now.handles handle × IsSomeAnd (record_of self.now.handles handle) (λ r. r.kind ≡ kind) }
    {
        match self.handles.get(handle) {
            Some(record) => record.kind == kind && !record.closing,
            None => false,
        }
    }

    /// Makes a handle that is inactive, under a free number, and answers the number.
    #[inline(never)]
    pub fn init(&mut self, kind: Kind) -> u32
        requires { kind ≢ Kind.Async }
        ensures { Makes (with_made kind) self.old result self.new }
    {
        let Some(handle) = self.handles.init(kind) else {
            return NO_ROOM;
        };
        handle
    }

    /// Makes an async that is active, under a free number, and answers the number.
    #[inline(never)]
    pub fn init_async(&mut self, callback: u32) -> u32
        ensures { MakesAsync callback self.old result self.new }
    {
        if !self.is_callback(callback) {
            return INVALID;
        }
        if self.asyncs.is_full() {
            return NONE_LEFT;
        }
        let Some(handle) = self.handles.init(Kind::Async) else {
            return NO_ROOM;
        };
        self.asyncs.push(Some(handle));
        self.handles.start(handle, callback, 0, 0);
        handle
    }

    /// Starts a handle.
    #[inline(never)]
    pub fn start(&mut self, kind: Kind, handle: u32, callback: u32, due: u64, repeat: u64) -> u32
        ensures answer { result ≡ (started_in kind handle callback due repeat self.old).0 }
        ensures roster { self.new ≡ (started_in kind handle callback due repeat self.old).1 }
    {
        if !self.is_open_of(kind, handle) {
            return INVALID;
        }
        if !self.is_callback(callback) {
            return INVALID;
        }
        self.handles.start(handle, callback, due, repeat);
        0
    }

    /// Stops a handle.
    #[inline(never)]
    pub fn stop(&mut self, kind: Kind, handle: u32) -> u32
        ensures answer { result ≡ (stopped_in kind handle self.old).0 }
        ensures roster { self.new ≡ (stopped_in kind handle self.old).1 }
    {
        if !self.is_open_of(kind, handle) {
            return INVALID;
        }
        self.handles.stop(handle);
        0
    }

    /// Starts a timer again by its repeat.
    #[inline(never)]
    pub fn again(&mut self, handle: u32, now: u64) -> u32
        ensures answer { result ≡ (again_in handle now self.old).0 }
        ensures roster { self.new ≡ (again_in handle now self.old).1 }
    {
        if !self.is_open_of(Kind::Timer, handle) {
            return INVALID;
        }
        if !self.handles.again(handle, now) {
            return INVALID;
        }
        0
    }

    /// Closes a handle.
    #[inline(never)]
    pub fn close(&mut self, handle: u32, callback: u32) -> u32
        ensures answer { result ≡ (closed_in handle callback self.old).0 }
        ensures roster { self.new ≡ (closed_in handle callback self.old).1 }
    {
        if !self.is_open(handle) {
            return INVALID;
        }
        if !self.is_callback(callback) {
            return INVALID;
        }
        self.handles.close(handle, callback);
        self.closing.push(handle);
        0
    }

    /// 1 for an active handle, 0 for another.
    pub fn active_answer(&self, handle: u32) -> u32
        ensures { result ≡ active_answer self.now handle }
    {
        match self.handles.get(handle) {
            Some(record) => u32::from(record.active),
            None => INVALID,
        }
    }

    /// The number of an async that is there and not closing.
    pub fn async_number(&self, handle: u32) -> Option<u32>
        ensures none { IfNone result (is_open_of Kind.Async self.now handle ≡ false) }
        ensures some { IfSome result (λ number. (is_open_of Kind.Async self.now handle ≡ true) × (number ≡ async_number self.now handle)) }
        ensures below { IfSome result (λ number. number < MAX_ASYNCS) }
    {
        if !self.is_open_of(Kind::Async, handle) {
            return None;
        }
        Some(position_of(self.asyncs.as_slice(), handle))
    }

    /// The callback of a handle that is still as it was listed.
    pub fn listed_function(&self, kind: Kind, handle: u32, start: u64) -> Option<u32>
        ensures some { IfSome result (λ f. (is_as_listed kind self.now handle start ≡ true) × (handle_function self.now handle ≡ Some f)) }
        ensures none { IfNone result (is_as_listed kind self.now handle start ≡ false) }
        ensures there { IfSome result (λ _. IsOpen self.now.handles handle × IsSomeAnd (record_of self.now.handles handle) (λ r. r.kind ≡ kind)) }
    {
        let record = self.handles.get(handle)?;
        if record.kind != kind || !record.active || record.start != start {
            return None;
        }
        Some(self.duty_function(handle, &record))
    }

    /// The callback of a timer that is still as it was listed. The timer is then inactive, or started again where
    /// it repeats.
    pub fn fire(&mut self, handle: u32, start: u64, now: u64) -> Option<u32>
        ensures some { IfSome result (λ f. (is_as_listed Kind.Timer self.old handle start ≡ true) × (handle_function self.old handle ≡ Some f)) }
        ensures none { IfNone result (is_as_listed Kind.Timer self.old handle start ≡ false) }
        ensures fired { IfSome result (λ _. self.new ≡ with_handles self.old (after_again self.old.handles handle now)) }
        ensures skipped { IfNone result (self.new ≡ self.old) }
    {
        let function = self.listed_function(Kind::Timer, handle, start)?;
        self.handles.again(handle, now);
        Some(function)
    }

    /// Removes a closing handle, and answers the callback of its close.
    pub fn finish_closing(&mut self, handle: u32) -> u32
        requires { IsClosing self.old.handles handle }
        ensures function { handle_function self.old handle ≡ Some result }
        ensures removed { self.new ≡ without_handle self.old handle }
    {
        let Some(record) = self.handles.get(handle) else {
            unreachable!();
        };
        let function = self.duty_function(handle, &record);
        self.handles.remove(handle);
        leave_out(&mut self.closing, handle);
        forget(&mut self.asyncs, handle);
        function
    }

    /// The handle of an async, if it is active, and its callback.
    pub fn active_async(&self, async_no: u32) -> Option<(u32, u32)>
        ensures none { IfNone result (is_active_handle self.now.handles (async_handle self.now async_no) ≡ false) }
        ensures some { IfSome result (λ found. IsActiveAsync self.now async_no found) }
    {
        let handle = self.async_at(async_no)?;
        let record = self.handles.get(handle)?;
        if !record.active {
            return None;
        }
        Some((handle, self.duty_function(handle, &record)))
    }

    /// The handle of an async, until that is removed.
    pub fn async_at(&self, async_no: u32) -> Option<u32>
        ensures value { result ≡ async_handle self.now async_no }
        ensures below { IfSome result (λ _. async_no < MAX_ASYNCS) }
    {
        self.asyncs
            .as_slice()
            .get(async_no as usize)
            .copied()
            .flatten()
    }

    /// The places of the active timers that are due by `now`.
    pub fn due(&self, now: u64) -> &[ListPlace]
        ensures value { map entry result.now ≡ due_list self.now.handles now }
        ensures few { length result.now ≤ MAX_HANDLES }
    {
        self.handles.due_places(now)
    }

    /// The places of the active idle or check handles.
    pub fn of_kind(&self, kind: Kind) -> &[ListPlace]
        requires { (kind ≡ Kind.Idle) ⊎ (kind ≡ Kind.Check) }
        ensures value { map entry result.now ≡ kind_list kind self.now.handles }
        ensures few { length result.now ≤ MAX_HANDLES }
    {
        self.handles.places(kind)
    }

    /// Whether an idle or a check handle is active.
    pub fn has(&self, kind: Kind) -> bool
        requires { (kind ≡ Kind.Idle) ⊎ (kind ≡ Kind.Check) }
        ensures { result ≡ not (is_empty (kind_list kind self.now.handles)) }
    {
        !self.of_kind(kind).is_empty()
    }

    /// The moment at which the first active timer is due.
    pub fn nearest(&self) -> Option<u64>
        ensures { result ≡ nearest_due self.now.handles }
    {
        self.handles.nearest()
    }

    /// The closing handles, in the order of their closing.
    pub fn closing(&self) -> &[u32]
        ensures value { result.now ≡ self.now.closing }
        ensures few { length result.now ≤ MAX_HANDLES }
    {
        self.closing.as_slice()
    }

    /// Whether a handle is active.
    pub fn has_active(&self) -> bool
        ensures { result ≡ has_active self.now }
    {
        let timer = self.handles.nearest().is_some();
        timer || self.has(Kind::Idle) || self.has(Kind::Check) || self.has_active_async()
    }

    fn has_active_async(&self) -> bool
        ensures { result ≡ not (is_empty (active_asyncs self.now)) }
    {
        for handle in self.asyncs.as_slice() {
            if self.is_active(*handle) {
                return true;
            }
        }
        false
    }

    /// The asyncs' handles by number.
    pub fn asyncs(&self) -> &[Option<u32>]
        ensures value { result.now ≡ self.now.asyncs }
        ensures few { length result.now ≤ MAX_ASYNCS }
    {
        self.asyncs.as_slice()
    }

    /// Whether a handle is active.
    pub fn is_active(&self, handle: Option<u32>) -> bool
        ensures { result ≡ is_active_handle self.now.handles handle }
    {
        match handle {
            Some(handle) => match self.handles.get(handle) {
                Some(record) => record.active,
                None => false,
            },
            None => false,
        }
    }
}

fn function_at(callbacks: &[Option<u32>], index: u32) -> Option<u32>
    ensures { result ≡ callback_function callbacks.now index }
{
    callbacks.get(index as usize).copied().flatten()
}

fn position_of(asyncs: &[Option<u32>], handle: u32) -> u32
    requires few { length asyncs.now ≤ MAX_ASYNCS }
    requires there { list_any (is_handle handle) asyncs.now ≡ true }
    ensures value { result ≡ position_or_len (is_handle handle) asyncs.now }
    ensures below { result < MAX_ASYNCS }
{
    for number in 0..asyncs.len() {
        if asyncs[number] == Some(handle) {
            return number as u32;
        }
    }
    unreachable!()
}

/// Takes the handle out of those that are closing.
fn leave_out(closing: &mut ArrayVec<u32, MAX_HANDLES>, handle: u32)
    ensures { closing.new.items ≡ filter (λ other. not (other == handle)) closing.old.items }
{
    closing.retain(|other| *other != handle);
}

/// Leaves the number of the handle's async without a handle.
fn forget(asyncs: &mut ArrayVec<Option<u32>, MAX_ASYNCS>, handle: u32)
    ensures { asyncs.new.items ≡ map (unless_handle handle) asyncs.old.items }
{
    forget_each(asyncs.as_mut_slice(), handle);
}

fn forget_each(asyncs: &mut [Option<u32>], handle: u32)
    ensures { asyncs.new ≡ map (unless_handle handle) asyncs.old }
{
    for number in 0..asyncs.len() {
        asyncs[number] = other_than(asyncs[number], handle);
    }
}

fn other_than(other: Option<u32>, handle: u32) -> Option<u32>
    ensures { result ≡ unless_handle handle other }
{
    if other == Some(handle) { None } else { other }
}
