// Why the loops that were served ended as they did, in sentences.

use events::phase::EntryKind;
use imports::EntryPoint;
use limits::{MAX_BYTES, MAX_DEPTH};
use order::{Order, Told};
use sentences::{Allowed, Ran, Unfinished, What, tell_stopped, unit_of, warn_clock, warn_refused};
use serve::{Account, Callback, LoopEnding, Served};
use std::alloc::Global;
use std::io::{self, Write};
use words::ServeCommand;

/// Reports why loops of a module of these bytes ended as they did.
#[derive(Drop)]
pub struct Teller<'a> {
    pub alloc: Global,
    pub bytes: &'a [u8],
    pub service: &'a ServeCommand,
}

/// Runs an order once more, which ends as it did the first time.
fn run_again(alloc: Global, order: Order) -> Option<Told> {
    let Some(_function) = order.module.entry(EntryPoint::Work) else {
        return None;
    };
    if order.bytes.len() > MAX_BYTES {
        return None;
    }
    match order.depth {
        1..=MAX_DEPTH => Some(order.run_told(alloc)),
        _ => None,
    }
}

/// How the last callback of a loop ended, if it did not return.
fn last_stopped(served: &Served, depth: u32) -> Option<(Ran, Unfinished<'_>)> {
    let Callback { kind, number } = served.account.last()?;
    let (ended, trail) = (served.account.stopped()?, served.trail.as_ref()?);
    let stopped = Unfinished::of_call(ended, trail, Allowed::by_options(depth))?;
    Some((Ran::callback(served.loop_no, kind, number), stopped))
}

/// Reports the last callbacks of a loop that reached its limit of callbacks.
fn tell_limit<E: Write>(account: &Account, err: &mut E) -> io::Result<()> {
    let Some(Callback { kind, number }) = account.last() else {
        return Ok(());
    };
    let last = What::Callback { kind, number };
    let (in_row, now) = (account.in_row(), account.now());
    match in_row {
        1 => write!(err, "the last callback was of {last}, at time {now}")?,
        _ => write!(
            err,
            "the last {in_row} callbacks were of {last}, at time {now}"
        )?,
    }
    match kind {
        EntryKind::Idle | EntryKind::Check => {
            err.write_all(b"; time does not advance while an idle or a check is active\n")
        }
        _ => err.write_all(b"\n"),
    }
}

/// Reports the asyncs that a loop waits for.
fn tell_waiting<E: Write>(account: &Account, err: &mut E) -> io::Result<()> {
    err.write_all(b"nothing sends to")?;
    let mut between = " async ";
    for handle in account.asyncs() {
        write!(err, "{between}{handle}")?;
        between = ", ";
    }
    err.write_all(b"\n")
}

fn write_most<E: Write>(
    loop_no: u32,
    what: &str,
    most: u64,
    fuel: u64,
    err: &mut E,
) -> io::Result<()> {
    writeln!(
        err,
        "loop {loop_no}: {what} used at most {most} of {fuel} {}",
        unit_of(fuel)
    )
}

impl Teller<'_> {
    /// Reports it for all loops.
    pub fn tell_all<E: Write>(&self, served: Vec<Served>, err: &mut E) -> io::Result<()> {
        for one in served {
            self.tell_ending(&one, err)?;
            warn_refused(one.loop_no, one.account.refused(), err)?;
            warn_clock(one.loop_no, one.account.now(), err)?;
            self.tell_most(&one, err)?;
            self.tell_work(one, err)?;
        }
        Ok(())
    }

    fn tell_ending<E: Write>(&self, served: &Served, err: &mut E) -> io::Result<()> {
        let loop_no = served.loop_no;
        match served.ending {
            LoopEnding::Over => Ok(()),
            LoopEnding::Failed => self.tell_failed(served, err),
            LoopEnding::Waiting => {
                write!(err, "loop {loop_no}: ")?;
                tell_waiting(&served.account, err)
            }
            LoopEnding::Limit => {
                write!(err, "loop {loop_no}: ")?;
                tell_limit(&served.account, err)
            }
        }
    }

    fn tell_failed<E: Write>(&self, served: &Served, err: &mut E) -> io::Result<()> {
        match last_stopped(served, self.service.settings.depth) {
            Some((ran, stopped)) => tell_stopped(&ran, self.bytes, &stopped, err),
            None => Ok(()),
        }
    }

    /// Reports the most fuel that a callback and a work function used, on request.
    fn tell_most<E: Write>(&self, served: &Served, err: &mut E) -> io::Result<()> {
        if !self.service.is_traced {
            return Ok(());
        }
        let (loop_no, settings) = (served.loop_no, self.service.settings);
        let most = served.account.most_used();
        write_most(loop_no, "a callback", most, settings.fuel, err)?;
        match served.account.most_work() {
            Some(most) => write_most(loop_no, "a work function", most, settings.work_fuel, err),
            None => Ok(()),
        }
    }

    /// Reports where the work of requests stopped, if it did not return.
    fn tell_work<E: Write>(&self, served: Served, err: &mut E) -> io::Result<()> {
        let loop_no = served.loop_no;
        for order in served.into_undone() {
            let ran = Ran::work(loop_no, order.request);
            if let Some(told) = run_again(self.alloc, order) {
                self.tell_undone(ran, &told, err)?;
            }
        }
        Ok(())
    }

    fn tell_undone<E: Write>(&self, ran: Ran, told: &Told, err: &mut E) -> io::Result<()> {
        let allowed = Allowed::of_work_by_options(self.service.settings.depth);
        match Unfinished::of_told(told, allowed) {
            Some(stopped) => tell_stopped(&ran, self.bytes, &stopped, err),
            None => Ok(()),
        }
    }
}
