// The places of three kinds in one room.

ghost use Rattle.std.specs.Prelude.{◌≡◌, ◌≢◌, ◌≤◌, ◌<◌, length, insert, remove, IfOk};
ghost use Rattle.handles.specs.Inner.Parts.{no_places, part, with_part, count};

use crate::bounded::Bounded;
use crate::handle::Kind;
use crate::sorted::ListPlace;
use limits::MAX_HANDLES;
use std::alloc::{AllocError, Global};
use std::marker::Model;

/// Places of idle handles, then of checks, then of timers, at most `MAX_HANDLES` together: a handle has one at most. Timers
/// come last, since they change most.
#[derive(Debug, Drop)]
pub struct Parted {
    places: Bounded<ListPlace, MAX_HANDLES>,
    /// Where the checks begin.
    checks: usize,
    /// Where the timers begin.
    timers: usize,
}

impl Model for Parted {
    ghost use Rattle.std.specs.Prelude.{◌≤◌, length};
    ghost use Rattle.handles.specs.Inner.Parts.{Parts, parts_code, parts_of};

    ghost Value = { Parts };

    ghost coded = { parts_code };

    ghost view = { λ a. parts_of a.places a.checks a.timers };

    ghost invariant = { λ a. (a.checks ≤ a.timers) × (a.timers ≤ length a.places) };
}

impl Parted {
    /// No place, with room for all. An error comes where memory is refused.
    pub fn new(alloc: Global) -> Result<Self, AllocError>
        ensures { IfOk result (λ made. made ≡ no_places) }
    {
        let places = Bounded::new(alloc)?;
        Ok(Parted {
            places,
            checks: 0,
            timers: 0,
        })
    }

    /// The places of a kind.
    #[inline(always)]
    pub fn part(&self, kind: Kind) -> &[ListPlace]
        requires { kind ≢ Kind.Async }
        ensures value { result.now ≡ part kind self.now }
        ensures most { length result.now ≤ MAX_HANDLES }
    {
        let places = self.places.as_slice();
        match kind {
            Kind::Idle => &places[..self.checks],
            Kind::Check => &places[self.checks..self.timers],
            Kind::Timer => &places[self.timers..],
            Kind::Async => unreachable!(),
        }
    }

    /// Inserts a place at an index of its kind.
    pub fn insert(&mut self, kind: Kind, at: usize, place: ListPlace)
        requires listed { kind ≢ Kind.Async }
        requires in_bounds { at ≤ length (part kind self.old) }
        requires room { count self.old < MAX_HANDLES }
        ensures { self.new ≡ with_part kind (insert (part kind self.old) at place) self.old }
    {
        match kind {
            Kind::Idle => {
                insert_at(&mut self.places, at, place);
                self.checks += 1;
                self.timers += 1;
            }
            Kind::Check => {
                insert_at(&mut self.places, self.checks + at, place);
                self.timers += 1;
            }
            Kind::Timer => insert_at(&mut self.places, self.timers + at, place),
            Kind::Async => unreachable!(),
        }
    }

    /// Removes the place at an index of its kind.
    pub fn remove(&mut self, kind: Kind, at: usize)
        requires listed { kind ≢ Kind.Async }
        requires in_bounds { at < length (part kind self.old) }
        ensures { self.new ≡ with_part kind (remove (part kind self.old) at) self.old }
    {
        // the length that is read says that they are few, so that no index overflows
        let _few = self.places.len();
        match kind {
            Kind::Idle => {
                remove_at(&mut self.places, at);
                self.checks -= 1;
                self.timers -= 1;
            }
            Kind::Check => {
                remove_at(&mut self.places, self.checks + at);
                self.timers -= 1;
            }
            Kind::Timer => remove_at(&mut self.places, self.timers + at),
            Kind::Async => unreachable!(),
        }
    }
}

/// Inserts a place at an index. At the end no other is moved.
#[inline(always)]
fn insert_at(places: &mut Bounded<ListPlace, MAX_HANDLES>, at: usize, place: ListPlace)
    requires in_bounds { at ≤ length places.old }
    requires room { length places.old < MAX_HANDLES }
    ensures { places.new ≡ insert places.old at place }
{
    if at == places.len() {
        places.push(place);
    } else {
        places.insert(at, place);
    }
}

/// Removes the place at an index. At the end no other is moved.
#[inline(always)]
fn remove_at(places: &mut Bounded<ListPlace, MAX_HANDLES>, at: usize)
    requires { at < length places.old }
    ensures { places.new ≡ remove places.old at }
{
    if at == places.len() - 1 {
        places.pop();
    } else {
        places.remove(at);
    }
}
