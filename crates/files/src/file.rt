// Where the bytes of a file come from, and where they go.

ghost use Rattle.std.specs.Prelude.{List, ℕ, IfOk, OnOk};

use crate::fault::IoFault;
use std::alloc::{AllocError, Global};
use std::fs::{self, File, Permissions};
use std::io::{self, ErrorKind, Read, Write};
use std::rt::Files;

/// Reads files by name.
pub trait Reader {
    // The file of this name, read up to this many bytes, gives these.
    ghost gives: { Self → List ℕ → ℕ → List ℕ → Type 0 };

    /// The first bytes of the file, at most `most` of them.
    fn read<'a>(&self, alloc: Global, name: &'a str, most: usize) -> Result<Vec<u8>, IoFault<'a>>
        ensures { IfOk result (λ bytes. gives self.now name.now most bytes.items) };
}

/// Writes files by name.
pub trait FileWriter {
    // The file of this name was made of these bytes.
    ghost takes: { Self → List ℕ → List ℕ → Type 0 };

    /// Creates or replaces a file of these bytes.
    fn write<'a>(&self, alloc: Global, name: &'a str, bytes: &[u8]) -> Result<(), IoFault<'a>>
        ensures { OnOk result (takes self.now name.now bytes.now) };
}

/// The files of the system.
#[derive(Drop)]
pub struct SystemFiles<'a, R> {
    runtime: &'a R,
}

impl<'a, R: Files> SystemFiles<'a, R> {
    /// The files that this runtime opens.
    pub fn new(runtime: &'a R) -> SystemFiles<'a, R> {
        SystemFiles { runtime }
    }

    fn front(&self, alloc: Global, name: &str, most: usize) -> io::Result<Vec<u8>> {
        let file = File::open(self.runtime, name)?;
        let mut bytes = Vec::new(alloc);
        file.take(most as u64).read_to_end(&mut bytes)?;
        Ok(bytes)
    }

    /// Whether a new file may take this name: an ordinary file has it, whose permissions are kept, or none does. A device, a pipe
    /// or a link stays what it is.
    fn replaceable(&self, name: &str) -> Option<Option<Permissions>> {
        match fs::symlink_metadata(self.runtime, name) {
            Ok(found) if found.is_file() => Some(Some(found.permissions())),
            Err(reason) if reason.kind() == ErrorKind::NotFound => Some(None),
            _ => None,
        }
    }

    /// Fills the new file `beside`, which then takes the name.
    fn replace(
        &self,
        mut file: R::File,
        kept: Option<Permissions>,
        beside: &str,
        name: &str,
        bytes: &[u8],
    ) -> io::Result<()> {
        if let Some(permissions) = kept {
            fs::set_permissions(self.runtime, beside, permissions)?;
        }
        file.write_all(bytes)?;
        fs::rename(self.runtime, beside, name)
    }

    /// Writes a file, by a new one beside it if there can be one: then a write that fails leaves what was there.
    fn put(&self, beside: &str, name: &str, bytes: &[u8]) -> io::Result<()> {
        let Some(kept) = self.replaceable(name) else {
            return fs::write(self.runtime, name, bytes);
        };
        let Ok(file) = File::create_new(self.runtime, beside) else {
            return fs::write(self.runtime, name, bytes);
        };
        let replaced = self.replace(file, kept, beside, name, bytes);
        if replaced.is_err() {
            // the first error is the one to report
            let _ = fs::remove_file(self.runtime, beside);
        }
        replaced
    }
}

/// The name of the new file that is to take this name.
fn beside(alloc: Global, name: &str) -> Result<String, AllocError> {
    let mut beside = String::from_str(alloc, name)?;
    beside.push_str(".part")?;
    Ok(beside)
}

impl<R: Files> Reader for SystemFiles<'_, R> {
    ghost gives = { λ _ _ _ _. Unit {0} };

    fn read<'a>(&self, alloc: Global, name: &'a str, most: usize) -> Result<Vec<u8>, IoFault<'a>> {
        self.front(alloc, name, most)
            .map_err(|reason| IoFault::unread(name, reason))
    }
}

impl<R: Files> FileWriter for SystemFiles<'_, R> {
    ghost takes = { λ _ _ _. Unit {0} };

    fn write<'a>(&self, alloc: Global, name: &'a str, bytes: &[u8]) -> Result<(), IoFault<'a>> {
        let beside = beside(alloc, name)?;
        self.put(beside.as_str(), name, bytes)
            .map_err(|reason| IoFault::unwritten(name, reason))
    }
}
