// Where a thread waits for what another one does.

use std::sync::atomic::{AtomicU64, Ordering};
use std::thread;

/// Waits for the word to be this number at least, for at most 1,000,000 turns. Whether it came to be.
pub fn comes(word: &AtomicU64, number: u64) -> bool {
    for _ in 0..1_000_000 {
        if word.load(Ordering::SeqCst) >= number {
            return true;
        }
        thread::yield_now();
    }
    false
}
