// A loop over a desk that takes one turn after another.

use crate::guests::{loop_at_desk, with_custom_section};
use crate::telling::{check_told, next, steps};
use desk::Desk;
use imports::EntryPoint;
use limits::{MAX_ASYNCS, MAX_BYTES, MAX_DEPTH, MAX_REQUESTS};
use order::{Order, Reply};
use phases::{Accepted, LoopCore};
use std::alloc::{AllocError, Global};
use std::fmt::Debug;
use std::process::Abort;
use std::sync::Arc;
use std::test::Fail;

/// The number of the loop.
const LOOP_NO: u32 = 3;

/// The fields of an order.
#[derive(Clone, Copy)]
pub enum Field {
    LoopNo,
    Request,
    Slot,
    Module,
    Operation,
    Bytes,
    Fuel,
    Depth,
}

/// What is done with a loop.
#[derive(Clone, Copy)]
pub enum Turn {
    /// So many steps are taken.
    Steps(u32),
    /// The clock is raised.
    Clock(u64),
    /// The hint is printed.
    Hint,
    /// Another sends to an async.
    Send(u32),
    /// The next order is handed out, in place of one that was.
    Order,
    /// Whether no order is left is printed.
    NoOrder,
    /// A worker starts the request of the order that was handed out last.
    Start,
    /// The request of this number is cancelled.
    Cancel(u32),
    /// The reply of the order that was handed out last is offered.
    Answer,
    /// The reply of that order with another value in this field is offered.
    AnswerOther(Field),
}

/// A loop, and the order that it handed out last.
#[derive(Drop)]
struct Driven {
    alloc: Global,
    core: LoopCore<Desk>,
    order: Option<Order>,
}

/// What a loop of a guest does in these turns.
pub fn told(alloc: Global, guest: &str, turns: &[Turn]) -> Result<String, Fail> {
    let mut text = String::new(alloc);
    drive(alloc, guest, turns, &mut text)?;
    Ok(text)
}

/// That a loop of a guest does in these turns what is wanted.
pub fn check(
    rt: &impl Abort,
    alloc: Global,
    guest: &str,
    turns: &[Turn],
    wanted: &str,
) -> Result<(), Fail> {
    let told = told(alloc, guest, turns)?;
    check_told(rt, told.as_str(), wanted);
    Ok(())
}

fn drive(alloc: Global, guest: &str, turns: &[Turn], text: &mut String) -> Result<(), Fail> {
    let core = loop_at_desk(alloc, guest, LOOP_NO)?;
    let mut driven = Driven {
        alloc,
        core,
        order: None,
    };
    driven.take_all(turns, text)
}

fn tell_word(text: &mut String, word: &str) -> Result<(), Fail> {
    next(text)?;
    text.push_str(word)?;
    Ok(())
}

/// A word, and what was answered.
fn tell<T: Debug + Drop>(text: &mut String, word: &str, answer: T) -> Result<(), Fail> {
    next(text)?;
    write!(text, "{word} {answer:?}")?;
    Ok(())
}

impl Driven {
    fn take_all(&mut self, turns: &[Turn], text: &mut String) -> Result<(), Fail> {
        for turn in turns {
            self.take(*turn, text)?;
        }
        Ok(())
    }

    fn take(&mut self, turn: Turn, text: &mut String) -> Result<(), Fail> {
        match turn {
            Turn::Steps(count) => self.steps(count, text),
            Turn::Clock(ms) => tell(text, "clock", self.core.clock(ms)),
            Turn::Hint => tell(text, "hint", self.core.hint()),
            Turn::Send(async_no) => self.send(async_no, text),
            Turn::Order => self.take_order(),
            Turn::NoOrder => self.ask_order(text),
            Turn::Start => self.start(text),
            Turn::Cancel(request) => tell(text, "cancel", self.core.cancel(request)),
            Turn::Answer => self.answer(text),
            Turn::AnswerOther(field) => self.answer_other(field, text),
        }
    }

    fn steps(&mut self, count: u32, text: &mut String) -> Result<(), Fail> {
        steps(&mut self.core, count, text)?;
        Ok(())
    }

    fn take_order(&mut self) -> Result<(), Fail> {
        self.order = self.core.next_order();
        Ok(())
    }

    fn ask_order(&mut self, text: &mut String) -> Result<(), Fail> {
        self.take_order()?;
        let word = match &self.order {
            Some(_) => "an order",
            None => "no order",
        };
        tell_word(text, word)
    }

    fn start(&mut self, text: &mut String) -> Result<(), Fail> {
        let order = self.copy()?;
        if order.slot as usize >= MAX_REQUESTS {
            return Err(Fail::from("no such slot"));
        }
        tell(text, "start", self.core.start(order.slot, order.request))
    }

    fn send(&mut self, async_no: u32, text: &mut String) -> Result<(), Fail> {
        if async_no as usize >= MAX_ASYNCS {
            return Err(Fail::from("no such async"));
        }
        tell(text, "send", self.core.sent(async_no))
    }

    /// The order that was handed out last.
    fn copy(&self) -> Result<Order, Fail> {
        match &self.order {
            Some(order) => Ok(copy_of(order)?),
            None => Err(Fail::from("no order")),
        }
    }

    /// That order with another value in this field.
    fn changed(&self, field: Field) -> Result<Order, Fail> {
        let mut order = self.copy()?;
        change(self.alloc, &mut order, field)?;
        Ok(order)
    }

    fn answer(&mut self, text: &mut String) -> Result<(), Fail> {
        let reply = run(self.alloc, self.copy()?)?;
        tell_word(text, self.offer(reply))
    }

    fn answer_other(&mut self, field: Field, text: &mut String) -> Result<(), Fail> {
        let reply = run(self.alloc, self.changed(field)?)?;
        tell_word(text, self.offer(reply))
    }

    fn offer(&mut self, reply: Reply) -> &'static str {
        match self.core.accept(reply) {
            Accepted::Accepted => "accepted",
            Accepted::Stranger(_) => "stranger",
        }
    }
}

/// Runs the order, where it can be run.
fn run(alloc: Global, order: Order) -> Result<Reply, Fail> {
    let Some(_work) = order.module.entry(EntryPoint::Work) else {
        return Err(Fail::from("no `uv_work`"));
    };
    if order.bytes.len() > MAX_BYTES || order.depth < 1 || order.depth > MAX_DEPTH {
        return Err(Fail::from("an order that can't be run"));
    }
    Ok(order.run(alloc))
}

fn copy_of(order: &Order) -> Result<Order, AllocError> {
    Ok(Order {
        module: Arc::try_clone(&order.module)?,
        bytes: Arc::try_clone(&order.bytes)?,
        ..*order
    })
}

fn other_bytes(alloc: Global) -> Result<Arc<Vec<u8>>, AllocError> {
    let bytes = vec![in alloc; 0x61, 0x62]?;
    Ok(Arc::new(alloc, bytes)?)
}

/// Puts another value into one field.
fn change(alloc: Global, order: &mut Order, field: Field) -> Result<(), Fail> {
    match field {
        Field::LoopNo => order.loop_no ^= 1,
        Field::Request => order.request ^= 2,
        Field::Slot => order.slot ^= 1,
        Field::Module => order.module = with_custom_section(alloc, &order.module)?,
        Field::Operation => order.op ^= 1,
        Field::Bytes => order.bytes = other_bytes(alloc)?,
        Field::Fuel => order.fuel ^= 1,
        Field::Depth => order.depth ^= 1,
    }
    Ok(())
}
