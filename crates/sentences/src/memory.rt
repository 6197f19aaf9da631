// What takes memory where something is told: words, and modules that are read again.

ghost use Rattle.std.specs.Prelude.{◌≡◌, ◌≢◌, ◌≤◌, length, string_bytes, IfOk, IfSome};
ghost use Rattle.syntax.specs.Binary.{Spells};
ghost use Rattle.decode.specs.Modules.{SpellsNothing};
ghost use Rattle.decode.specs.declared.fault.DecodeFault.TheVariants as decoding;
ghost use Rattle.validate.specs.Sites.{BreaksAt};
ghost use Rattle.valid.specs.Valid.{ValidModule};
ghost use Rattle.places.specs.Places.{IsPlaceOfImport};

use decode::{DecodeFault, MalformedAt};
use loader::Refusal;
use places::Place;
use std::alloc::{AllocError, Global};
use std::fmt::{self, Write};
use std::io::{self, ErrorKind};
use std::str;
use syntax::module::Module;
use valid::Valid;
use validate::{InvalidAt, ValidFault};

/// Memory for a text was refused. One is made in this module alone, where an allocation was, or where a module that is read again says so.
#[derive(Drop)]
pub struct RefusedText {
    by: AllocError,
}

/// Words that are written one after the other, as far as there is memory for them.
#[derive(Drop)]
pub struct Page {
    text: String,
    refused: Option<RefusedText>,
}

impl Page {
    /// No words.
    pub fn new(alloc: Global) -> Page {
        Page {
            text: String::new(alloc),
            refused: None,
        }
    }

    /// Whether there was memory for these words too.
    fn append(&mut self, words: &str) -> bool {
        match self.text.push_str(words) {
            Ok(()) => true,
            Err(by) => {
                self.refused = Some(RefusedText { by });
                false
            }
        }
    }

    /// Writes what prints as words.
    pub fn add<T: fmt::Display + Drop>(&mut self, told: T) {
        // the page itself keeps that memory was refused
        let _ = write!(self, "{told}");
    }

    /// The words, unless memory was refused for some.
    pub fn finish(self) -> Result<String, RefusedText> {
        let Page { text, refused } = self;
        match refused {
            Some(refused) => Err(refused),
            None => Ok(text),
        }
    }
}

impl fmt::Write for Page {
    fn write_str(&mut self, words: &str) -> fmt::Result {
        if self.append(words) {
            Ok(())
        } else {
            Err(fmt::Error)
        }
    }
}

impl io::Write for Page {
    fn write(&mut self, bytes: &[u8]) -> io::Result<usize> {
        match str::from_utf8(bytes) {
            Ok(words) if self.append(words) => Ok(bytes.len()),
            Ok(_) => Err(io::Error::from(ErrorKind::OutOfMemory)),
            Err(_) => Err(io::Error::from(ErrorKind::InvalidData)),
        }
    }

    fn flush(&mut self) -> io::Result<()> {
        Ok(())
    }
}

/// What prints as words, in memory of its own.
pub fn text<T: fmt::Display + Drop>(alloc: Global, told: T) -> Result<String, RefusedText> {
    let mut page = Page::new(alloc);
    page.add(told);
    page.finish()
}

/// A name of a decoded module, which is UTF-8, so that only an allocation can fail.
pub(crate) fn export_name(alloc: Global, name: &[u8]) -> Result<String, RefusedText>
    ensures { IfOk result (λ text. string_bytes text ≡ name.now) }
{
    match Place::export(alloc, name) {
        Some(Place::Export { name }) => Ok(name),
        _ => Err(RefusedText { by: AllocError }),
    }
}

/// The place of an import, by its number and its two names.
pub(crate) fn import_place(
    alloc: Global,
    number: usize,
    module: &[u8],
    name: &[u8],
) -> Result<Place, RefusedText>
    ensures { IfOk result (IsPlaceOfImport number «module».now name.now) }
{
    match Place::import(alloc, number, module, name) {
        Some(place) => Ok(place),
        None => Err(RefusedText { by: AllocError }),
    }
}

/// Where bytes that are read again are refused by their form, if they are.
pub(crate) fn malformed_at(alloc: Global, bytes: &[u8]) -> Result<Option<MalformedAt>, RefusedText>
    ensures refused { IfOk result (λ found. IfSome found (λ r. r.fault ≢ decoding.Memory → SpellsNothing bytes.now)) }
    ensures within { IfOk result (λ found. IfSome found (λ r. r.at ≤ length bytes.now)) }
{
    let Some(found) = decode::refused_at(alloc, bytes) else {
        return Ok(None);
    };
    if found.fault == DecodeFault::Memory {
        return Err(RefusedText { by: AllocError });
    }
    Ok(Some(found))
}

/// Where a module that is read again isn't valid, if it isn't.
pub(crate) fn invalid_at(alloc: Global, module: &Module) -> Result<Option<InvalidAt>, RefusedText>
    ensures { IfOk result (λ found. IfSome found (λ r. BreaksAt «module».now.contents r.fault r.site)) }
{
    let Some(found) = validate::refused_at(alloc, module) else {
        return Ok(None);
    };
    if found.fault == ValidFault::Memory {
        return Err(RefusedText { by: AllocError });
    }
    Ok(Some(found))
}

/// The module of bytes that are read again, if they spell one.
pub(crate) fn decoded(alloc: Global, bytes: &[u8]) -> Result<Option<Module>, RefusedText>
    ensures { IfOk result (λ read. IfSome read (λ m. Spells bytes.now m.contents)) }
{
    match loader::decoded(alloc, bytes) {
        Ok(module) => Ok(Some(module)),
        Err(Refusal::Memory) => Err(RefusedText { by: AllocError }),
        Err(_) => Ok(None),
    }
}

/// The valid module of bytes that are read again, if they spell one.
pub(crate) fn validated(alloc: Global, bytes: &[u8]) -> Result<Option<Valid>, RefusedText>
    ensures spelled { IfOk result (λ read. IfSome read (λ v. Spells bytes.now v.contents)) }
    ensures valid { IfOk result (λ read. IfSome read (λ v. ValidModule v.contents)) }
{
    match loader::validated(alloc, bytes) {
        Ok(valid) => Ok(Some(valid)),
        Err(Refusal::Memory) => Err(RefusedText { by: AllocError }),
        Err(_) => Ok(None),
    }
}
