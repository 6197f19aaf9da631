// Numbers, as they are printed.

use std::fmt;

/// A number with commas, as in `1,048,576`.
#[derive(Clone, Copy, Debug)]
pub struct Grouped(pub u64);

impl fmt::Display for Grouped {
    fn fmt<W: fmt::Write>(&self, f: &mut fmt::Formatter<W>) -> fmt::Result {
        let (millions, thousands, units) = (
            self.0 / 1_000_000,
            self.0 / 1000 % 1000,
            self.0 % 1000,
        );
        match (millions, thousands) {
            (0, 0) => write!(f, "{units}"),
            (0, _) => write!(f, "{thousands},{units:03}"),
            _ => write!(f, "{millions},{thousands:03},{units:03}"),
        }
    }
}
