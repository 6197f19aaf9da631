// The greatest fuel that a work function of a loop used.

use std::alloc::{AllocError, Global};
use std::sync::Arc;
use std::sync::atomic::{AtomicU64, Ordering};

/// The greatest number of units of fuel that a work function of one loop used. The loop and its tasks share it. Where nobody
/// asks for it, nothing is kept.
#[derive(Drop)]
pub struct Meter {
    most: Option<Arc<AtomicU64>>,
}

impl Meter {
    /// That of a loop whose work functions have used nothing, if it is asked for.
    pub fn begun(alloc: Global, is_asked: bool) -> Result<Meter, AllocError> {
        let most = if is_asked {
            Some(Arc::new(alloc, AtomicU64::new(0))?)
        } else {
            None
        };
        Ok(Meter { most })
    }

    /// One more owner of it.
    pub fn shared(&self) -> Result<Meter, AllocError> {
        let most = match &self.most {
            Some(most) => Some(Arc::try_clone(most)?),
            None => None,
        };
        Ok(Meter { most })
    }

    /// A work function used so much.
    pub fn saw(&self, used: u64) {
        if let Some(most) = &self.most {
            most.fetch_max(used, Ordering::SeqCst);
        }
    }

    /// The greatest number that was seen, if any was.
    pub fn most(&self) -> Option<u64> {
        let most = self.most.as_ref()?.load(Ordering::SeqCst);
        (most > 0).then_some(most)
    }
}
