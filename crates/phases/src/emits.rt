// What a callback emits.

ghost use Rattle.std.specs.Prelude.{◌≡◌, ◌+◌, ◌<◌, ◌^◌, ◌-◌, [], IfOk};

use handles::Bounded;
use limits::MAX_EMITS;
use std::alloc::{AllocError, Global};

/// The numbers that the last callback emitted, and how many were refused to all callbacks since there was no place.
#[derive(Drop)]
pub struct Emits {
    pub kept: Bounded<u64, MAX_EMITS>,
    pub refused: u64,
}

impl Emits {
    /// None were emitted, and none refused. An error comes where memory is refused.
    pub fn new(alloc: Global) -> Result<Self, AllocError>
        ensures kept { IfOk result (λ made. made.kept ≡ []) }
        ensures refused { IfOk result (λ made. made.refused ≡ 0) }
    {
        Ok(Emits {
            kept: Bounded::new(alloc)?,
            refused: 0,
        })
    }

    /// One more was refused.
    pub fn refuse(&mut self)
        ensures kept { self.new.kept ≡ self.old.kept }
        ensures counted { self.old.refused < 2 ^ 64 - 1 → self.new.refused ≡ self.old.refused + 1 }
    {
        self.refused = self.refused.saturating_add(1);
    }
}
