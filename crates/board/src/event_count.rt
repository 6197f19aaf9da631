// An event count: what threads sleep on until something is done.

use std::hint::spin_loop;
use std::sync::Wait;
use std::sync::atomic::{AtomicU64, Ordering};

/// How often a thread looks again before it sleeps. It takes some microseconds at most, and to sleep and to be woken takes as long.
const LOOKS: u32 = 300;

/// It counts its events. A thread that is going to wait first asks how many there were, and then looks for what it waits
/// for: if that comes after the look, so does an event, and the wait ends. A thread is counted in `sleepers` before the
/// system compares the events, and an event is counted before `sleepers` is read, so that one of them sees the other.
#[derive(Drop)]
pub struct EventCount {
    events: AtomicU64,
    sleepers: AtomicU64,
}

impl EventCount {
    pub const fn new() -> EventCount {
        EventCount {
            events: AtomicU64::new(0),
            sleepers: AtomicU64::new(0),
        }
    }

    /// How many events there were.
    pub fn events(&self) -> u64 {
        self.events.load(Ordering::SeqCst)
    }

    /// Wakes one of those that wait.
    pub fn wake_one(&self) {
        self.events.fetch_add(1, Ordering::SeqCst);
        if self.sleepers.load(Ordering::SeqCst) != 0 {
            self.events.wake_one();
        }
    }

    /// Wakes all that wait.
    pub fn wake_all(&self) {
        self.events.fetch_add(1, Ordering::SeqCst);
        if self.sleepers.load(Ordering::SeqCst) != 0 {
            self.events.wake_all();
        }
    }

    /// Looks a fixed number of times whether there are more events than so many.
    fn sees_more(&self, heard: u64) -> bool {
        for _ in 0..LOOKS {
            if self.events() != heard {
                return true;
            }
            spin_loop();
        }
        false
    }

    /// Waits until there are more events than so many: it looks for a while, and then sleeps.
    pub fn wait<R: Wait>(&self, rt: &R, heard: u64) {
        if self.sees_more(heard) {
            return;
        }
        self.sleepers.fetch_add(1, Ordering::SeqCst);
        for _ in rt.forever() {
            if self.events() != heard {
                break;
            }
            self.events.park(rt, (heard & 0xffff_ffff) as u32);
        }
        self.sleepers.fetch_sub(1, Ordering::SeqCst);
    }
}
