// What is left of a phase's list.

ghost use Rattle.std.specs.Prelude.{◌≡◌, ◌≤◌, ◌+◌, [], ◌∷◌, ◌++◌, ◌==◌, length, map, filter, drop, slice_get, ◌<◌, if◌then◌else◌, IfOk};
ghost use Rattle.handles.specs.Table.{entry};
ghost use Rattle.limits.specs.declared.TheConstants.{MAX_REQUESTS};
ghost use Rattle.phases.specs.PhaseList.{first_list, handle_entry, active_asyncs, is_active_handle};
ghost use Rattle.phases.specs.Requests.{is_settled};

use crate::entry::Entry;
use crate::request::Request;
use crate::roster::Roster;
use handles::{Bounded, Kind, ListPlace};
use limits::MAX_HANDLES;
use std::alloc::{AllocError, Global};
use std::marker::Model;

/// How many entries a list has at most: a phase lists the handles of a kind, or requests and asyncs, which are fewer.
const MAX_ENTRIES: usize = MAX_HANDLES;

/// The entries of a phase that are still to come.
#[derive(Debug, Drop)]
pub struct Entries {
    items: Bounded<Entry, MAX_ENTRIES>,
    at: usize,
}

impl Model for Entries {
    ghost use Rattle.std.specs.Prelude.{List, drop, length, ◌≤◌};
    ghost use Rattle.phases.specs.declared.entry.Entry.{Entry};

    ghost Value = { List Entry };

    ghost view = { λ a. drop a.at a.items };

    ghost invariant = { λ a. a.at ≤ length a.items };
}

impl Entries {
    /// The start function, then `uv_main`, each where present. An error comes where memory is refused.
    pub fn first(alloc: Global, start: bool, main: bool) -> Result<Self, AllocError>
        ensures { IfOk result (λ made. made ≡ first_list start main) }
    {
        let mut items = Bounded::new(alloc)?;
        if start {
            items.push(Entry::Start);
        }
        if main {
            items.push(Entry::Main);
        }
        Ok(Entries { items, at: 0 })
    }

    /// Leaves no entry.
    pub fn clear(&mut self)
        ensures { self.new ≡ [] }
    {
        self.at = 0;
        self.items.clear();
    }

    /// Lists the handles of a kind that stand at these places.
    pub fn list_handles(&mut self, kind: Kind, places: &[ListPlace])
        requires { length places.now ≤ MAX_HANDLES }
        ensures { self.new ≡ map (handle_entry kind) (map entry places.now) }
    {
        self.at = 0;
        list_handles(&mut self.items, kind, places);
    }

    /// Lists the closing handles.
    pub fn list_closing(&mut self, handles: &[u32])
        requires { length handles.now ≤ MAX_HANDLES }
        ensures { self.new ≡ map (λ handle. Entry.Close handle) handles.now }
    {
        self.at = 0;
        list_closing(&mut self.items, handles);
    }

    /// Lists the requests that are answered or cancelled, then the asyncs that are active, each by number.
    pub fn list_poll(&mut self, requests: &[Request], roster: &Roster)
        requires { length requests.now ≤ MAX_REQUESTS }
        ensures { self.new ≡ map (λ r. Entry.After r.order.request) (filter (λ r. is_settled r.stage) requests.now) ++ map (λ a. Entry.Async a) (active_asyncs roster.now) }
    {
        self.at = 0;
        list_settled(&mut self.items, requests);
        push_asyncs(&mut self.items, roster);
    }

    /// The front entry.
    pub fn front(&self) -> Option<Entry>
        ensures { result ≡ slice_get self.now 0 }
    {
        self.items.as_slice().get(self.at).copied()
    }

    /// Takes the front entry off, if there is one.
    pub fn pop(&mut self)
        ensures { self.new ≡ drop 1 self.old }
    {
        if self.at < self.items.len() {
            self.at += 1;
        }
    }
}

fn list_handles(items: &mut Bounded<Entry, MAX_ENTRIES>, kind: Kind, places: &[ListPlace])
    requires { length places.now ≤ MAX_HANDLES }
    ensures { items.new ≡ map (λ place. handle_entry kind (entry place)) places.now }
{
    items.clear();
    for place in places {
        items.push(Entry::of_handle(kind, place.handle, place.start));
    }
}

fn list_closing(items: &mut Bounded<Entry, MAX_ENTRIES>, handles: &[u32])
    requires { length handles.now ≤ MAX_HANDLES }
    ensures { items.new ≡ map (λ handle. Entry.Close handle) handles.now }
{
    items.clear();
    for handle in handles {
        items.push(Entry::Close { handle: *handle });
    }
}

fn list_settled(items: &mut Bounded<Entry, MAX_ENTRIES>, requests: &[Request])
    requires { length requests.now ≤ MAX_REQUESTS }
    ensures entries { items.new ≡ map (λ r. Entry.After r.order.request) (filter (λ r. is_settled r.stage) requests.now) }
    ensures few { length items.new ≤ MAX_REQUESTS }
{
    items.clear();
    for request in requests {
        if request.is_settled() {
            items.push(Entry::After {
                request: request.number(),
            });
        }
    }
}

fn push_asyncs(items: &mut Bounded<Entry, MAX_ENTRIES>, roster: &Roster)
    requires { length items.old ≤ MAX_REQUESTS }
    ensures { items.new ≡ items.old ++ map (λ a. Entry.Async a) (active_asyncs roster.now) }
{
    let asyncs = roster.asyncs();
    for async_no in 0..asyncs.len() {
        push_if_active(items, roster, asyncs[async_no], async_no as u32);
    }
}

fn push_if_active(
    items: &mut Bounded<Entry, MAX_ENTRIES>,
    roster: &Roster,
    handle: Option<u32>,
    async_no: u32,
)
    requires { length items.old < MAX_ENTRIES }
    ensures entries { items.new ≡ items.old ++ (if is_active_handle roster.now.handles handle then Entry.Async async_no ∷ [] else []) }
    ensures few { length items.new ≤ length items.old + 1 }
{
    if roster.is_active(handle) {
        items.push(Entry::Async { async_no });
    }
}

impl Entry {
    fn of_handle(kind: Kind, handle: u32, start: u64) -> Entry
        ensures { result ≡ handle_entry kind (handle, start) }
    {
        match kind {
            Kind::Timer => Entry::Timer { handle, start },
            Kind::Idle => Entry::Idle { handle, start },
            Kind::Check => Entry::Check { handle, start },
            Kind::Async => Entry::Async { async_no: handle },
        }
    }
}
