// What is wrong with a script, in words.

use hex::FromHexError;
use json::Token;
use places::Shown;
use std::fmt;

/// A part of a script.
#[derive(Clone, Copy)]
pub enum ScriptPart {
    Script,
    Module(usize),
    Loop(usize),
    Step(usize),
}

/// What is wrong.
#[derive(Clone, Copy)]
pub enum Wrong<'a> {
    /// This key is unknown.
    Unknown {
        key: &'a str,
        keys: &'static str,
    },
    /// This key is a duplicate.
    Twice(&'static str),
    /// This key is missing.
    Lacks(&'static str),
    /// The value of `name` is not of the expected kind.
    Wanted {
        name: Option<&'static str>,
        wanted: &'static str,
        found: Token<'a>,
    },
    /// No step has this name.
    NoStep(&'a str),
    /// A step of this name takes `taken` numbers.
    Count {
        name: &'a str,
        taken: usize,
        given: usize,
    },
    /// A loop names a module that does not exist.
    NoModule {
        found: &'a str,
        modules: u64,
    },
    /// This number is out of range.
    Outside {
        name: &'static str,
        found: &'a str,
        least: u64,
        most: u64,
    },
    /// The number of these is out of range.
    Many {
        name: &'static str,
        found: u64,
        least: u64,
        most: u64,
    },
    /// These are not bytes in hexadecimal.
    Digits(FromHexError),
}

/// The first thing that is wrong with a script: where it begins, in bytes, in which part, and what it is.
#[derive(Clone, Copy)]
pub struct Flaw<'a> {
    pub at: usize,
    pub part: ScriptPart,
    pub wrong: Wrong<'a>,
}

impl<'a> Flaw<'a> {
    /// This is wrong there.
    pub fn new(at: usize, part: ScriptPart, wrong: Wrong<'a>) -> Flaw<'a> {
        Flaw { at, part, wrong }
    }

    /// The value of `name` is not of the expected kind.
    pub fn wanted(
        at: usize,
        part: ScriptPart,
        name: Option<&'static str>,
        wanted: &'static str,
        found: Token<'a>,
    ) -> Flaw<'a> {
        let wrong = Wrong::Wanted {
            name,
            wanted,
            found,
        };
        Flaw { at, part, wrong }
    }
}

impl fmt::Display for ScriptPart {
    fn fmt<W: fmt::Write>(&self, f: &mut fmt::Formatter<W>) -> fmt::Result {
        match self {
            ScriptPart::Script => Ok(()),
            ScriptPart::Module(number) => write!(f, "module {number}: "),
            ScriptPart::Loop(number) => write!(f, "loop {number}: "),
            ScriptPart::Step(number) => write!(f, "step {number}: "),
        }
    }
}

fn write_token<W: fmt::Write>(f: &mut fmt::Formatter<W>, token: Token<'_>) -> fmt::Result {
    match token {
        Token::BeginObject => f.write_str("an object"),
        Token::BeginArray => f.write_str("an array"),
        Token::String(_) => f.write_str("a string"),
        Token::Number(text) => write!(f, "{}", Shown(text)),
        Token::Bool(true) => f.write_str("true"),
        Token::Bool(false) => f.write_str("false"),
        Token::Null => f.write_str("null"),
        Token::EndObject | Token::EndArray | Token::Key(_) | Token::Bad => f.write_str("nothing"),
    }
}

fn write_wanted<W: fmt::Write>(
    f: &mut fmt::Formatter<W>,
    name: Option<&'static str>,
    wanted: &str,
    found: Token<'_>,
) -> fmt::Result {
    if let Some(name) = name {
        write!(f, "{name}: ")?;
    }
    write!(f, "expected {wanted}, found ")?;
    write_token(f, found)
}

fn write_count<W: fmt::Write>(
    f: &mut fmt::Formatter<W>,
    name: &str,
    taken: usize,
    given: usize,
) -> fmt::Result {
    match taken {
        1 => write!(f, "{name} takes 1 number, found {given}"),
        _ => write!(f, "{name} takes {taken} numbers, found {given}"),
    }
}

/// Writes between which numbers one has to lie.
fn write_range<W: fmt::Write, N: fmt::Display>(
    f: &mut fmt::Formatter<W>,
    name: &str,
    found: &N,
    least: u64,
    most: u64,
) -> fmt::Result {
    write!(
        f,
        "{name}: {found} is out of range, expected {least} to {most}"
    )
}

impl fmt::Display for Wrong<'_> {
    fn fmt<W: fmt::Write>(&self, f: &mut fmt::Formatter<W>) -> fmt::Result {
        match *self {
            Wrong::Unknown { key, keys } => {
                write!(f, "unknown key \"{}\"; keys: {keys}", Shown(key))
            }
            Wrong::Twice(key) => write!(f, "duplicate key \"{key}\""),
            Wrong::Lacks(key) => write!(f, "missing key \"{key}\""),
            Wrong::Wanted {
                name,
                wanted,
                found,
            } => write_wanted(f, name, wanted, found),
            Wrong::NoStep(name) => write!(
                f,
                "unknown step \"{}\"; steps: loop, post, take, start, finish, collect, send, cancel, clock",
                Shown(name)
            ),
            Wrong::Count { name, taken, given } => write_count(f, name, taken, given),
            Wrong::NoModule { found, modules } => {
                write!(
                    f,
                    "there is no module {found}; modules in the script: {modules}"
                )
            }
            Wrong::Outside {
                name,
                found,
                least,
                most,
            } => write_range(f, name, &found, least, most),
            Wrong::Many {
                name,
                found,
                least,
                most,
            } => write_range(f, name, &found, least, most),
            Wrong::Digits(fault) => {
                write!(
                    f,
                    "{fault}: expected the module's bytes, two hexadecimal digits each, without 0x or spaces"
                )
            }
        }
    }
}

impl fmt::Display for Flaw<'_> {
    fn fmt<W: fmt::Write>(&self, f: &mut fmt::Formatter<W>) -> fmt::Result {
        let (part, wrong) = (self.part, self.wrong);
        write!(f, "{part}{wrong}")
    }
}
