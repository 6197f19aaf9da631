// Tests as rows of text. Who asserts is lent what is looked at: a test's own exits drop what it holds.

use std::alloc::Global;
use std::fmt::Debug;
use std::process::Abort;
use std::test::Fail;

/// The two parts of a row, or none of a remark and of an empty line.
fn parts_of(row: &str) -> Result<Option<(&str, &str)>, Fail> {
    let row = row.trim();
    if row.is_empty() || row.starts_with('#') {
        return Ok(None);
    }
    let Some(parts) = row.split_once(" = ") else {
        return Err(Fail::from("a row of one part"));
    };
    Ok(Some(parts))
}

/// That what is seen is what is expected.
pub fn shows<T: Copy + Debug + PartialEq>(rt: &impl Abort, seen: T, expected: T) {
    assert_eq!(rt; seen, expected);
}

/// Asserts that what was printed of a text is what is wanted.
pub fn check_told_of(rt: &impl Abort, told: &str, wanted: &str, text: &str) {
    shows(rt, (text, told), (text, wanted));
}

/// What tells of the texts of rows.
pub trait RowTeller {
    /// What is printed of this text.
    fn tell(&self, alloc: Global, text: &str) -> Result<String, Fail>;
}

fn check_row<T: RowTeller>(
    rt: &impl Abort,
    alloc: Global,
    text: &str,
    wanted: &str,
    teller: &T,
) -> Result<(), Fail> {
    let told = teller.tell(alloc, text)?;
    check_told_of(rt, told.as_str(), wanted, text);
    Ok(())
}

/// Each row has a text and what is to be printed of it.
pub fn check_rows<T: RowTeller>(
    rt: &impl Abort,
    alloc: Global,
    rows: &str,
    teller: &T,
) -> Result<(), Fail> {
    for row in rows.lines() {
        if let Some((text, wanted)) = parts_of(row)? {
            check_row(rt, alloc, text, wanted, teller)?;
        }
    }
    Ok(())
}
