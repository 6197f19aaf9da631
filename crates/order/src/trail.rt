// Where a run stopped, kept beyond its instance.

ghost use Rattle.std.specs.Prelude.{◌≡◌, ◌-◌, ◌≤◌, length, take, slice_get, option_map};
ghost use Rattle.order.specs.Trails.{innermost_sites};

use instance::stack::{CallStack, Site, Stop};
use std::marker::Model;

/// How many sites a trail has at most: the operation at which the run stopped, and 16 calls around it.
pub const MAX_TRAIL: usize = 17;

/// The operation at which a run stopped and, from the inside outwards, the calls within which it did, at most `MAX_TRAIL`
/// sites in all; how many calls were open; and the address, if the run stopped for an access outside the memory. A `Stop` has all of them,
/// but goes with its instance.
#[derive(Debug, Drop)]
pub struct Trail {
    sites: [Site; MAX_TRAIL],
    count: usize,
    calls: usize,
    address: Option<u64>,
}

impl Model for Trail {
    ghost use Rattle.std.specs.Prelude.{take, ◌≤◌};
    ghost use Rattle.order.specs.Trails.{Innermost};
    ghost use Rattle.order.specs.declared.trail.TheConstants.{MAX_TRAIL};

    ghost Value = { Innermost };

    ghost view = { λ t. record { sites = take t.count t.sites; calls = t.calls; address = t.address } };

    ghost invariant = { λ t. (t.count ≤ MAX_TRAIL) × (t.count ≤ t.calls) };
}

/// Copies the innermost sites, as many as there is room for.
fn copy_sites(stop: &Stop<'_>, sites: &mut [Site])
    requires { length sites.old ≤ length stop.now.sites }
    ensures { sites.new ≡ take (length sites.old) stop.now.sites }
{
    for index in 0..sites.len() {
        let Some(site) = stop.get(index) else {
            unreachable!();
        };
        sites[index] = site;
    }
}

impl Trail {
    /// What is kept of a stop.
    pub fn of(stop: &Stop<'_>) -> Trail
        ensures { result ≡ innermost_sites stop.now }
    {
        let nowhere = Site {
            function: 0,
            operation: 0,
        };
        let mut sites = [nowhere; MAX_TRAIL];
        let calls = stop.len();
        let count = calls.min(MAX_TRAIL);
        copy_sites(stop, &mut sites[..count]);
        Trail {
            sites,
            count,
            calls,
            address: stop.address(),
        }
    }

    /// What is kept of where the last run on a stack stopped, unless it returned.
    pub fn of_last(stack: &CallStack) -> Option<Trail>
        ensures { result ≡ option_map innermost_sites stack.now }
    {
        Some(Trail::of(&stack.last_stop()?))
    }

    /// The sites, the innermost first: the operation at which the run stopped, the call around it, and so on.
    pub fn as_slice(&self) -> &[Site]
        ensures { result.now ≡ self.now.sites }
    {
        &self.sites[..self.count]
    }

    /// The site at an index: 0 the operation at which the run stopped, 1 the call around it, and so on outwards.
    pub fn get(&self, index: usize) -> Option<Site>
        ensures { result ≡ slice_get self.now.sites index }
    {
        self.as_slice().get(index).copied()
    }

    /// How many calls were open.
    pub fn calls(&self) -> usize
        ensures { result ≡ self.now.calls }
    {
        self.calls
    }

    /// The address of the access outside the memory for which the run stopped, if it did for one.
    pub fn address(&self) -> Option<u64>
        ensures { result ≡ self.now.address }
    {
        self.address
    }

    /// How many of them there are around those that it has.
    pub fn more(&self) -> usize
        ensures { result ≡ self.now.calls - length self.now.sites }
    {
        self.calls - self.as_slice().len()
    }
}
