// What became of a loop.

ghost use Rattle.serve.specs.Histories.{HasServed};

use crate::account::Account;
use order::{Order, Trail};
use std::fmt;

/// How a loop ended.
#[derive(Clone, Copy, Debug, PartialEq, Eq)]
pub enum LoopEnding {
    /// Nothing was left to do.
    Over,
    /// A callback did not return.
    Failed,
    /// What is left to do waits for what no one does.
    Waiting,
    /// It ran as many callbacks as it may.
    Limit,
}

impl LoopEnding {
    /// The word that is printed.
    pub fn word(self) -> &'static str {
        match self {
            LoopEnding::Over => "over",
            LoopEnding::Failed => "failed",
            LoopEnding::Waiting => "waiting",
            LoopEnding::Limit => "limit",
        }
    }
}

/// What one loop did. It prints as a line, as in `loop 0 over emits 6`.
///
/// A loop of this number has a history from its opening, over its seats, in which its callbacks emitted just this, and
/// at whose end it has ended so.
#[derive(Drop)]
pub struct Served {
    /// The loop's number, from 0.
    pub loop_no: u32,
    /// How it ended.
    pub ending: LoopEnding,
    /// What its callbacks emitted, in order.
    pub emits: Vec<u64>,
    /// What it did last.
    pub account: Account,
    /// Where its last callback stopped, if that did not return.
    pub trail: Option<Trail>,
    pub ghost told: { ∥ HasServed loop_no ending emits.items ∥₁ },
}

impl Served {
    /// The orders of the loop whose work did not return, in the order in which it was offered their replies: the first 16.
    pub fn into_undone(self) -> Vec<Order> {
        let Served {
            loop_no: _,
            ending: _,
            emits: _,
            account,
            trail: _,
        } = self;
        account.into_undone()
    }
}

impl fmt::Display for Served {
    fn fmt<W: fmt::Write>(&self, f: &mut fmt::Formatter<W>) -> fmt::Result {
        let (loop_no, word) = (self.loop_no, self.ending.word());
        write!(f, "loop {loop_no} {word} emits")?;
        for value in self.emits.as_slice() {
            let signed = value.cast_signed();
            write!(f, " {signed}")?;
        }
        Ok(())
    }
}
