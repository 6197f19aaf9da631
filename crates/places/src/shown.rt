// Names that a module gives, as they are printed.

use std::fmt;

/// How many letters of a name are printed at most.
const MOST: usize = 200;

/// A name as a line can hold it: what can't be printed is escaped, and of a long name the first 200 letters stand there, and
/// how many more there are.
#[derive(Clone, Copy, Debug)]
pub struct Shown<'a>(pub &'a str);

fn write_letter<W: fmt::Write>(f: &mut fmt::Formatter<W>, letter: char) -> fmt::Result {
    if letter == '\'' {
        return f.write_char(letter);
    }
    for part in letter.escape_debug() {
        f.write_char(part)?;
    }
    Ok(())
}

impl fmt::Display for Shown<'_> {
    fn fmt<W: fmt::Write>(&self, f: &mut fmt::Formatter<W>) -> fmt::Result {
        for letter in self.0.chars().take(MOST) {
            write_letter(f, letter)?;
        }
        match self.0.chars().count().saturating_sub(MOST) {
            0 => Ok(()),
            1 => f.write_str(".. and 1 more letter"),
            more => write!(f, ".. and {more} more letters"),
        }
    }
}
