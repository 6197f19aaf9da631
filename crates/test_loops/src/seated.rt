// Loops over seats, whose takes are noted.

ghost use Rattle.std.specs.Prelude.{◌≡◌, IfOk};
ghost use Rattle.claims.specs.Views.{new_loop_view};
ghost use Rattle.marks.specs.Counts.{new_taker, new_sender};
ghost use Rattle.phases.specs.View.{new_view};

use crate::guests::{DEPTH, FUEL, linked_of};
use crate::sending::{CLOSES, FAILS, SENDS};
use crate::telling::{check_told, steps};
use claims::{Claims, LoopSeat, NewClaims};
use imports::Linked;
use marks::{Marks, SendSeat, TakeSeat};
use phases::{LoopCore, Shared};
use pool::Seats;
use std::alloc::{AllocError, Global};
use std::process::Abort;
use std::sync::Arc;
use std::test::Fail;

/// The seats of a loop, with how many sends its takes answered, of which the first four are kept.
#[derive(Drop)]
struct Noted<'a> {
    seats: Seats<'a>,
    taken: [u64; 4],
    takes: usize,
}

impl<'a> Shared for Noted<'a> {
    ghost use Rattle.pool.specs.Share.{seats_calls};
    ghost use Rattle.pool.specs.SeatsLaw.{seats_lawful};

    ghost calls = { seats_calls (λ s. s.seats.loop_seat) (λ s. s.seats.taker) };

    fn open(&mut self, slot: u32, request: u32) {
        self.seats.open(slot, request);
    }

    fn cancel(&mut self, slot: u32, request: u32) -> bool {
        self.seats.cancel(slot, request)
    }

    fn send(&mut self, async_no: u32) -> bool {
        self.seats.send(async_no)
    }

    fn take(&mut self, async_no: u32) -> u64 {
        let taken = self.seats.take(async_no);
        if let Some(place) = self.taken.get_mut(self.takes) {
            *place = taken;
            self.takes += 1;
        }
        taken
    }

    ghost lawful = { seats_lawful (λ s. s.seats.loop_seat) (λ s. s.seats.taker) };
}

/// Claims for one loop, with its seat.
fn claims_of_one(alloc: Global) -> Result<(Claims, LoopSeat), AllocError>
    ensures { IfOk result (λ m. m.1 ≡ new_loop_view m.0.id 0) }
{
    let NewClaims {
        claims,
        mut loop_seats,
        worker_seats: _,
    } = Claims::new(alloc, 1, 0)?;
    let Some(loop_seat) = loop_seats.pop() else {
        unreachable!()
    };
    Ok((claims, loop_seat))
}

/// Marks with one seat that sends.
fn marks_of_one(alloc: Global) -> Result<(Marks, TakeSeat, SendSeat), AllocError>
    ensures taker { IfOk result (λ m. m.1 ≡ new_taker m.0 1) }
    ensures sender { IfOk result (λ m. m.2 ≡ new_sender m.0) }
{
    let (marks, taker, mut send_seats) = Marks::new(alloc, 1)?;
    let Some(sender) = send_seats.pop() else {
        unreachable!()
    };
    Ok((marks, taker, sender))
}

/// Sends so many times to async 0. Whether each time was taken in.
fn sends(marks: &Marks, sender: &mut SendSeat, count: u32) -> bool
    requires { sender.old.marks ≡ marks.now }
    ensures { sender.new.marks ≡ marks.now }
{
    for _ in 0..count {
        if marks.send(sender, 0).is_err() {
            return false;
        }
    }
    true
}

/// How many steps a loop takes, how many sends to its async 0 there are before and after, and how many steps after those.
#[derive(Clone, Copy)]
struct Counts {
    before: u32,
    steps: u32,
    behind: u32,
    more: u32,
}

/// A loop of the guest over these seats, which have done nothing.
fn seated_loop<'a>(
    alloc: Global,
    guest: Arc<Linked>,
    seats: Seats<'a>,
) -> Result<LoopCore<Noted<'a>>, AllocError>
    requires loop_seat { seats.loop_seat ≡ new_loop_view seats.loop_seat.claims 0 }
    requires taker { seats.taker ≡ new_taker seats.taker.marks 1 }
{
    let noted = Noted {
        seats,
        taken: [0; 4],
        takes: 0,
    };
    LoopCore::new(alloc, guest, noted, 0, FUEL, FUEL, DEPTH)
}

/// Sends, takes the steps, sends again and takes the further steps. Whether the sends were taken in, before and after.
fn drive(
    core: &mut LoopCore<Noted<'_>>,
    marks: &Marks,
    sender: &mut SendSeat,
    counts: Counts,
    text: &mut String,
) -> Result<(bool, bool), AllocError>
    requires { sender.old.marks ≡ marks.now }
{
    let before = sends(marks, sender, counts.before);
    steps(core, counts.steps, text)?;
    let behind = sends(marks, sender, counts.behind);
    steps(core, counts.more, text)?;
    Ok((before, behind))
}

fn tell_end(
    core: LoopCore<Noted<'_>>,
    sent: (bool, bool),
    text: &mut String,
) -> Result<(), AllocError> {
    core.into_shared().tell(sent, text)
}

fn drive_to_end(
    mut core: LoopCore<Noted<'_>>,
    marks: &Marks,
    sender: &mut SendSeat,
    counts: Counts,
    text: &mut String,
) -> Result<(), AllocError>
    requires { sender.old.marks ≡ marks.now }
{
    let sent = drive(&mut core, marks, sender, counts, text)?;
    tell_end(core, sent, text)
}

fn with_marks(
    alloc: Global,
    guest: Arc<Linked>,
    claims: &Claims,
    loop_seat: LoopSeat,
    counts: Counts,
    text: &mut String,
) -> Result<(), AllocError>
    requires { loop_seat ≡ new_loop_view claims.now.id 0 }
{
    let (marks, taker, mut sender) = marks_of_one(alloc)?;
    let seats = Seats::new(claims, loop_seat, &marks, taker);
    let core = seated_loop(alloc, guest, seats)?;
    drive_to_end(core, &marks, &mut sender, counts, text)
}

fn with_claims(
    alloc: Global,
    guest: Arc<Linked>,
    counts: Counts,
    text: &mut String,
) -> Result<(), AllocError> {
    let (claims, loop_seat) = claims_of_one(alloc)?;
    with_marks(alloc, guest, &claims, loop_seat, counts, text)
}

/// What a loop of a guest does in so many steps and so many more, with so many sends to its async 0 before each, and what
/// its takes answered.
fn seated(alloc: Global, guest: &str, counts: Counts) -> Result<String, Fail> {
    let mut text = String::new(alloc);
    with_claims(alloc, linked_of(alloc, guest)?, counts, &mut text)?;
    Ok(text)
}

/// That the loop does what is wanted.
fn check(
    rt: &impl Abort,
    alloc: Global,
    guest: &str,
    counts: Counts,
    wanted: &str,
) -> Result<(), Fail> {
    let told = seated(alloc, guest, counts)?;
    check_told(rt, told.as_str(), wanted);
    Ok(())
}

impl Noted<'_> {
    /// Tells whether the sends were taken in, and what the first takes answered.
    fn tell(&self, sent: (bool, bool), text: &mut String) -> Result<(), AllocError> {
        let taken = self.taken.get(..self.takes).unwrap_or(&[]);
        write!(text, "; sent {} {}; taken {taken:?}", sent.0, sent.1)
    }
}

/// `uv_main` makes async 0 with handle 0, and asks whether it is active. The async's callback emits its handle.
const WAKES: &str = "01120460017f017f60017e017f60000060017f00
    022a030275760a6173796e635f696e697400000275760969735f616374697665000002757604656d69740001
    0303020203
    040401700001
    070b010775765f6d61696e0003
    0907010041000b0104
    0a17020c00410010001001ac10021a0b08002000ac10021a0b";

#[test]
fn sends_before_an_async_is_made_run_its_callback_once(rt: HostRuntime) -> Result<(), Fail> {
    let counts = Counts {
        before: 3,
        steps: 11,
        behind: 0,
        more: 0,
    };
    let wanted =
        "run Main 0 1; Timers 0; Idle 0; Poll 0; run Async 0 0; Check 0; Closing 0; Timers 0; Idle 0; \
        Poll 0; skip Async 0; sent true true; taken [3, 0]";
    check(&rt, rt.alloc(), WAKES, counts, wanted)
}

#[test]
fn sends_between_two_polls_run_the_callback_again(rt: HostRuntime) -> Result<(), Fail> {
    let counts = Counts {
        before: 1,
        steps: 11,
        behind: 2,
        more: 6,
    };
    let wanted =
        "run Main 0 1; Timers 0; Idle 0; Poll 0; run Async 0 0; Check 0; Closing 0; Timers 0; Idle 0; \
        Poll 0; skip Async 0; Check 0; Closing 0; Timers 0; Idle 0; Poll 0; run Async 0 0; \
        sent true true; taken [1, 0, 2]";
    check(&rt, rt.alloc(), WAKES, counts, wanted)
}

#[test]
fn the_next_poll_takes_what_a_timer_sent(rt: HostRuntime) -> Result<(), Fail> {
    let counts = Counts {
        before: 0,
        steps: 7,
        behind: 0,
        more: 0,
    };
    let wanted =
        "run Main 0 0; Timers 0; run Timer 1 0; Idle 0; Poll 0; run Async 0 0; Check 0; sent true true; \
        taken [1]";
    check(&rt, rt.alloc(), SENDS, counts, wanted)
}

#[test]
fn a_closed_async_is_sent_to(rt: HostRuntime) -> Result<(), Fail> {
    let counts = Counts {
        before: 1,
        steps: 8,
        behind: 2,
        more: 0,
    };
    let wanted =
        "run Main 0 0 0; Timers 0; Idle 0; Poll 0; Check 0; run Check 1; Closing 0; run Close 0; \
        sent true true; taken []";
    check(&rt, rt.alloc(), CLOSES, counts, wanted)
}

#[test]
fn a_failed_loop_is_sent_to(rt: HostRuntime) -> Result<(), Fail> {
    let counts = Counts {
        before: 0,
        steps: 2,
        behind: 2,
        more: 0,
    };
    let wanted = "run Main 0 trap; failed; sent true true; taken []";
    check(&rt, rt.alloc(), FAILS, counts, wanted)
}
