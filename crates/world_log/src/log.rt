// What a world did, step by step.

ghost use Rattle.std.specs.Prelude.{◌≡◌, ◌++◌, ◌∷◌, ◌≤◌, [], OnOk, OnErr};

use crate::entry::LogEntry;
use std::alloc::{AllocError, Global};
use std::marker::Model;

/// What a world did, one entry for each step, the oldest first. Contracts see the list of its entries, and for how many
/// more there is room.
#[derive(Drop)]
pub struct Log {
    entries: Vec<LogEntry>,
}

impl Model for Log {
    ghost use Rattle.std.specs.Prelude.{◌-◌, length, vec_capacity};
    ghost use Rattle.world_log.specs.Written.{Written};

    ghost Value = { Written };

    ghost view = { λ log. record { entries = log.entries.items; room = vec_capacity log.entries - length log.entries.items } };
}

impl Log {
    /// A log with no entry. It keeps the allocator for those that come.
    pub fn new(alloc: Global) -> Log
        ensures { result.entries ≡ [] }
    {
        Log {
            entries: Vec::new(alloc),
        }
    }

    /// Makes room for one more entry, and changes none. `AllocError` comes only if memory is refused.
    pub fn reserve(&mut self) -> Result<(), AllocError>
        ensures entries { self.new.entries ≡ self.old.entries }
        ensures room { OnOk result (1 ≤ self.new.room) }
    {
        self.entries.reserve(1)
    }

    /// Writes an entry after the others, where there is room for it.
    pub fn push_reserved(&mut self, entry: LogEntry)
        requires room { 1 ≤ self.old.room }
        ensures { self.new.entries ≡ self.old.entries ++ entry ∷ [] }
    {
        self.entries.push_reserved(entry);
    }

    /// Writes an entry after the others. `AllocError` comes only if memory is refused: the entries are as they were.
    pub fn push(&mut self, entry: LogEntry) -> Result<(), AllocError>
        ensures written { OnOk result (self.new.entries ≡ self.old.entries ++ entry ∷ []) }
        ensures unchanged { OnErr result (self.new.entries ≡ self.old.entries) }
    {
        self.reserve()?;
        self.push_reserved(entry);
        Ok(())
    }

    /// The entries, the oldest first.
    pub fn entries(&self) -> &[LogEntry]
        ensures { result.now ≡ self.now.entries }
    {
        self.entries.as_slice()
    }
}
