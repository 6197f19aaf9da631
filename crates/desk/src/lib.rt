//! What one loop shares with workers and other threads, where all stands in one thread: the loop, the workers and the
//! other threads take turns at one `Desk`.
//!
//! A desk meets the traits of what a loop shares, as the claims and send counts between real threads do, but each of
//! its answers is determined by all that was done before. All stands in the words of one table with one seat. The
//! seat's view is the whole history, which no value holds.
#![tactic(auto)]

ghost use Rattle.std.specs.Prelude.{◌≡◌, ◌+◌, ◌<◌, IfOk};
ghost use Rattle.desk.specs.Desk.{new_desk};

pub mod laws;
mod rule;

use crate::rule::{
    Agreement, Cancelling, Getting, History, LoopSending, LoopTaking, Opening, Starting,
};
use atomic_table::{Seat, Table};
use limits::{MAX_ASYNCS, MAX_REQUESTS, MAX_SENDS};
use phases::{Beside, Shared};
use std::alloc::{AllocError, Global};
use std::marker::Model;

/// No request has this number, which stands in a slot where none is open.
const NO_REQUEST: u32 = 0;

/// What a loop shares. Contracts see all that was done: what the loop knows, the requests that workers started, how
/// much waits at each async, and how much was sent there by others.
#[derive(Drop)]
pub struct Desk {
    table: Table<(), History, u32, Agreement, Global>,
    seat: Seat<(), History>,
    own_sends: u64,
    other_sends: u64,
}

impl Model for Desk {
    ghost use Rattle.std.specs.Prelude.{◌≡◌, ◌+◌};
    ghost use Rattle.limits.specs.declared.TheConstants.{MAX_REQUESTS, MAX_ASYNCS};
    ghost use Rattle.desk.specs.Desk as told;
    ghost use Rattle.desk.specs.Inner.Rule.{desk_of, SendsAreCounted, DeskIsSized};

    ghost Value = { told.Desk };

    ghost view = { λ d. desk_of d.seat.me.0 };

    ghost invariant = { λ d.
        (d.seat.table_id ≡ d.table.shared.table_id)
        × (d.seat.id ≡ 0)
        × (d.table.shared.table_id.words ≡ MAX_REQUESTS + MAX_ASYNCS)
        × DeskIsSized (desk_of d.seat.me.0)
        × SendsAreCounted (desk_of d.seat.me.0) d.own_sends d.other_sends };
}

/// The place of an async's word.
fn waiting_place(async_no: u32) -> usize
    requires { async_no < MAX_ASYNCS }
    ensures { result ≡ MAX_REQUESTS + async_no }
{
    MAX_REQUESTS + async_no as usize
}

impl Desk {
    /// The desk of the loop of this number, at which nothing was done yet. `AllocError` comes only where memory was
    /// refused. No later call takes any.
    pub fn new(alloc: Global, loop_no: u32) -> Result<Desk, AllocError>
        ensures { IfOk result (λ d. d ≡ new_desk loop_no) }
    {
        let (table, seat) = Table::of_words(alloc, &[0; MAX_REQUESTS + MAX_ASYNCS], &loop_no)?;
        Ok(Desk {
            table,
            seat,
            own_sends: 0,
            other_sends: 0,
        })
    }
}

impl Shared for Desk {
    ghost use Rattle.desk.specs.Desk.{desk_calls};
    ghost use Rattle.desk.specs.Inner.Law.{desk_lawful};

    ghost calls = { desk_calls };

    fn open(&mut self, slot: u32, request: u32) {
        let table = &self.table;
        let words = &table.shared;
        words.store::<Opening>(&mut self.seat, slot as usize, u64::from(request));
    }

    fn cancel(&mut self, slot: u32, request: u32) -> bool {
        if request == NO_REQUEST {
            return false;
        }
        let number = u64::from(request);
        let table = &self.table;
        let words = &table.shared;
        words.compare_exchange::<Cancelling>(&mut self.seat, slot as usize, number, 0) == number
    }

    fn send(&mut self, async_no: u32) -> bool {
        if self.own_sends == MAX_SENDS {
            return false;
        }
        let table = &self.table;
        let words = &table.shared;
        words.fetch_add::<LoopSending>(&mut self.seat, waiting_place(async_no), 1);
        self.own_sends += 1;
        true
    }

    fn take(&mut self, async_no: u32) -> u64 {
        let table = &self.table;
        let words = &table.shared;
        words.swap::<LoopTaking>(&mut self.seat, waiting_place(async_no), 0)
    }

    ghost lawful = { desk_lawful };
}

impl Beside for Desk {
    ghost use Rattle.desk.specs.Desk.{desk_others};
    ghost use Rattle.desk.specs.Inner.Law.{desk_beside};

    ghost others = { desk_others };

    fn start(&mut self, slot: u32, request: u32) -> bool {
        if request == NO_REQUEST {
            return false;
        }
        let number = u64::from(request);
        let table = &self.table;
        let words = &table.shared;
        words.compare_exchange::<Starting>(&mut self.seat, slot as usize, number, 0) == number
    }

    fn sent(&mut self, async_no: u32) -> bool {
        if self.other_sends == MAX_SENDS {
            return false;
        }
        let table = &self.table;
        let words = &table.shared;
        words.fetch_add::<Getting>(&mut self.seat, waiting_place(async_no), 1);
        self.other_sends += 1;
        true
    }

    ghost beside = { desk_beside };
}
