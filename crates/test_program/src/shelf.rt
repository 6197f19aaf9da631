// The files that a list and its commands make.

use files::{FileWriter, IoFault, Reader};
use std::alloc::{AllocError, Global};
use std::cell::RefCell;
use std::io::{self, ErrorKind};

#[derive(Drop)]
struct Kept {
    name: String,
    bytes: Vec<u8>,
}

/// The files that a list has made so far, by their names, and those that its commands have written. Where two have one name, it
/// is the written one that is read, and of these the last.
#[derive(Drop)]
pub struct Shelf {
    files: Vec<Kept>,
    written: RefCell<Vec<Kept>>,
}

fn wrong() -> io::Error {
    io::Error::from(ErrorKind::InvalidData)
}

fn absent(name: &str) -> IoFault<'_> {
    let reason = io::Error::from(ErrorKind::NotFound);
    IoFault::Unread { name, reason }
}

impl Shelf {
    /// No file.
    pub fn new(alloc: Global) -> Shelf {
        Shelf {
            files: Vec::new(alloc),
            written: RefCell::new(Vec::new(alloc)),
        }
    }

    fn keep(&mut self, alloc: Global, name: &str, bytes: Vec<u8>) -> Result<(), AllocError> {
        let name = String::from_str(alloc, name)?;
        self.files.push(Kept { name, bytes })?;
        Ok(())
    }

    /// Makes a file of the bytes that these hexadecimal digits spell.
    pub fn keep_bytes(&mut self, alloc: Global, name: &str, digits: &str) -> io::Result<()> {
        let bytes = hex::decode(alloc, digits).map_err(|_| wrong())?;
        self.keep(alloc, name, bytes)?;
        Ok(())
    }

    /// Makes a file of a text, in which each `@OTHER@` is the file of that name in hexadecimal.
    pub fn keep_text(&mut self, alloc: Global, name: &str, text: &str) -> io::Result<()> {
        let mut whole = String::new(alloc);
        let mut is_name = false;
        for part in text.split('@') {
            if is_name {
                whole.push_str(hex::encode(alloc, self.find(part).ok_or_else(wrong)?)?.as_str())?;
            } else {
                whole.push_str(part)?;
            }
            is_name = !is_name;
        }
        self.keep(alloc, name, whole.into_bytes())?;
        Ok(())
    }

    fn find(&self, name: &str) -> Option<&[u8]> {
        let kept = self.files.iter().find(|kept| kept.name.as_str() == name)?;
        Some(kept.bytes.as_slice())
    }

    /// The front of the last file of this name that a command has written.
    fn find_written(
        &self,
        alloc: Global,
        name: &str,
        most: usize,
    ) -> Option<Result<Vec<u8>, AllocError>> {
        let written = self.written.try_borrow().ok()?;
        let kept = written
            .iter()
            .rev()
            .find(|kept| kept.name.as_str() == name)?;
        Some(front(alloc, kept.bytes.as_slice(), most))
    }

    /// The front of a file where the name ends with a colon and a number, else the whole file.
    fn named(&self, name: &str) -> Option<&[u8]> {
        let Some((file, count)) = name.split_once(':') else {
            return self.find(name);
        };
        self.find(file)?.get(..count.parse::<usize>().ok()?)
    }
}

fn front(alloc: Global, bytes: &[u8], most: usize) -> Result<Vec<u8>, AllocError> {
    Vec::from_slice(alloc, &bytes[..bytes.len().min(most)])
}

impl Reader for Shelf {
    ghost gives = { λ _ _ _ _. Unit {0} };

    fn read<'a>(&self, alloc: Global, name: &'a str, most: usize) -> Result<Vec<u8>, IoFault<'a>> {
        if let Some(found) = self.find_written(alloc, name, most) {
            return Ok(found?);
        }
        match name.strip_prefix("hex:") {
            Some(digits) => match hex::decode(alloc, digits) {
                Ok(bytes) => Ok(front(alloc, bytes.as_slice(), most)?),
                Err(_) => Err(absent(name)),
            },
            None => match self.named(name) {
                Some(bytes) => Ok(front(alloc, bytes, most)?),
                None => Err(absent(name)),
            },
        }
    }
}

fn unwritten(name: &str, kind: ErrorKind) -> IoFault<'_> {
    let reason = io::Error::from(kind);
    IoFault::Unwritten { name, reason }
}

/// Under `/nowhere/` no file can be made.
impl FileWriter for Shelf {
    ghost takes = { λ _ _ _. Unit {0} };

    fn write<'a>(&self, alloc: Global, name: &'a str, bytes: &[u8]) -> Result<(), IoFault<'a>> {
        if name.starts_with("/nowhere/") {
            return Err(unwritten(name, ErrorKind::NotFound));
        }
        let kept = Kept {
            name: String::from_str(alloc, name)?,
            bytes: Vec::from_slice(alloc, bytes)?,
        };
        match self.written.try_borrow_mut() {
            Ok(mut written) => Ok(written.push(kept)?),
            Err(_) => Err(unwritten(name, ErrorKind::ResourceBusy)),
        }
    }
}
