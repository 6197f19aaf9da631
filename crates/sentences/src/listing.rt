// Names in a row.

use places::Shown;
use std::alloc::{AllocError, Global};

/// How many names are listed at most.
const MOST: usize = 16;

/// Names in a row, the first 16 of them, and how many there are, each as a line can hold it.
#[derive(Drop)]
pub struct Listing {
    alloc: Global,
    text: String,
    count: usize,
}

impl Listing {
    /// No name.
    pub fn new(alloc: Global) -> Listing {
        Listing {
            alloc,
            text: String::new(alloc),
            count: 0,
        }
    }

    /// One more name.
    pub fn add(&mut self, name: &str) -> Result<(), AllocError> {
        if self.count < MOST {
            if self.count > 0 {
                self.text.push_str(", ")?;
            }
            write!(self.text, "{}", Shown(name))?;
        }
        self.count = self.count.saturating_add(1);
        Ok(())
    }

    /// The names in a row, and after them how many more there are.
    pub fn finish(self) -> Result<String, AllocError> {
        if self.count <= MOST {
            return Ok(self.text);
        }
        let Listing { alloc, text, count } = self;
        let more = count - MOST;
        format!(in alloc; "{text} and {more} more")
    }
}
