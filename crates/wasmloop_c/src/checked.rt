// Limits of a call that are in range.

ghost use Rattle.std.specs.Prelude.{◌≡◌, ◌↔◌, None, IfSome, IsTrue};
ghost use Rattle.wasmloop_c.specs.Calls.{IsDepth};

use crate::instances::CallLimits;
use limits::MAX_DEPTH;
use std::marker::Model;

/// Whether so many calls may stand open.
#[inline(always)]
pub fn is_depth(depth: u32) -> bool
    ensures { IsTrue result ↔ IsDepth depth }
{
    1 <= depth && depth <= MAX_DEPTH
}

/// Limits of a call whose depth is in range. To a contract they are the limits.
#[derive(Clone, Copy)]
pub struct CheckedLimits {
    limits: CallLimits,
}

impl Model for CheckedLimits {
    ghost use Rattle.wasmloop_c.specs.Calls.{IsDepth};
    ghost use Rattle.wasmloop_c.specs.declared.instances.CallLimits.{CallLimits};

    ghost Value = { CallLimits };

    ghost view = { λ c. c.limits };

    ghost inverse = { λ limits. record { limits = limits } };

    ghost invariant = { λ c. IsDepth c.limits.depth };
}

impl CheckedLimits {
    /// The limits, unless their depth is out of range.
    #[inline(always)]
    pub fn of(limits: &CallLimits) -> Option<CheckedLimits>
        ensures same { IfSome result (λ c. c ≡ limits.now) }
        ensures range { IfSome result (λ c. IsDepth limits.now.depth) }
        ensures outside { result ≡ None → ¬ IsDepth limits.now.depth }
    {
        if !is_depth(limits.depth) {
            return None;
        }
        Some(CheckedLimits { limits: *limits })
    }

    /// The fuel of the call.
    #[inline(always)]
    pub fn fuel(self) -> u64
        ensures { result ≡ self.fuel }
    {
        self.limits.fuel
    }

    /// How many calls may stand open, 1 to 128.
    #[inline(always)]
    pub fn depth(self) -> u32
        ensures value { result ≡ self.depth }
        ensures range { IsDepth result }
    {
        self.limits.depth
    }
}
