// Where threads wait for each other.

use std::alloc::{AllocError, Global};
use std::sync::Arc;
use std::sync::atomic::{AtomicU64, Ordering};
use test_fixtures::comes;

/// How many are wanted, how many came, and whether one of them waited in vain.
#[derive(Drop)]
pub struct Meeting {
    wanted: u64,
    came: Arc<AtomicU64>,
    in_vain: Arc<AtomicU64>,
}

impl Meeting {
    /// Of so many. Nobody came yet.
    pub fn new(alloc: Global, wanted: u32) -> Result<Meeting, AllocError> {
        Ok(Meeting {
            wanted: u64::from(wanted),
            came: Arc::new(alloc, AtomicU64::new(0))?,
            in_vain: Arc::new(alloc, AtomicU64::new(0))?,
        })
    }

    /// One more owner of it.
    pub fn shared(&self) -> Result<Meeting, AllocError> {
        Ok(Meeting {
            wanted: self.wanted,
            came: Arc::try_clone(&self.came)?,
            in_vain: Arc::try_clone(&self.in_vain)?,
        })
    }

    /// Comes, and waits until all that are wanted are there, for at most 1,000,000 turns, unless somebody waited in vain.
    pub fn meet(&self) {
        self.came.fetch_add(1, Ordering::SeqCst);
        if self.is_missed() || !comes(&self.came, self.wanted) {
            self.in_vain.store(1, Ordering::SeqCst);
        }
    }

    fn is_missed(&self) -> bool {
        self.in_vain.load(Ordering::SeqCst) != 0
    }

    /// Whether all came that are wanted, and nobody waited in vain.
    pub fn took_place(&self) -> bool {
        self.came.load(Ordering::SeqCst) >= self.wanted && !self.is_missed()
    }
}
