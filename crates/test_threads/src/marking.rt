// Marks: sends and takes, by threads.

ghost use Rattle.std.specs.Prelude.{◌≡◌, ◌+◌, ◌≤◌, ◌<◌, [], ◌∷◌, slice_index, sum, All, IfOk};
ghost use Rattle.std.specs.Thread.{IsSync};
ghost use Rattle.tallies.specs.Counts.{none_counted};
ghost use Rattle.marks.specs.Counts.{new_sender, new_taker};

use crate::showing::{check_told, shows};
use limits::{MAX_ASYNCS, MAX_SEND_SEATS, MAX_SENDS};
use marks::{Marks, SendSeat, SendsUsedUp, TakeSeat};
use std::alloc::{AllocError, Global};
use std::test::Fail;
use std::thread::{Threads, join, yield_now};

/// The last async.
const LAST: u32 = MAX_ASYNCS as u32 - 1;

/// The marks of a loop with one send seat.
fn one_sender(alloc: Global) -> Result<(Marks, TakeSeat, SendSeat), AllocError>
    ensures { IfOk result (λ m. (m.1 ≡ new_taker m.0 1) × (m.2 ≡ new_sender m.0)) }
{
    let (marks, taker, mut seats) = Marks::new(alloc, 1)?;
    let Some(seat) = seats.pop() else {
        unreachable!()
    };
    Ok((marks, taker, seat))
}

/// Sends so often to async 0.
fn send_times(marks: &Marks, mut seat: SendSeat, times: u32) -> SendSeat
    requires { seat ≡ new_sender marks.now }
    ensures own { result.marks ≡ marks.now }
    ensures sent { slice_index result.sends 0 ≡ times }
{
    for _ in 0..times {
        let Ok(()) = marks.send(&mut seat, 0) else {
            unreachable!()
        };
    }
    seat
}

#[test]
fn an_unjoined_seats_sends_are_taken_once(rt: HostRuntime) -> Result<(), Fail> {
    let (marks, mut taker, seat) = one_sender(rt.alloc())?;
    let seat = send_times(&marks, seat, 3);
    shows(&rt, marks.take(&mut taker, 0), 3);
    shows(&rt, marks.take(&mut taker, 0), 0);
    drop(seat);
    shows(&rt, marks.take(&mut taker, 0), 0);
    Ok(())
}

/// What a loop takes from this async before a send to it, after that, and after another.
fn take_thrice(
    marks: &Marks,
    taker: &mut TakeSeat,
    seat: &mut SendSeat,
    async_no: u32,
) -> Result<(u64, u64, u64), SendsUsedUp>
    requires own { (taker.old.marks ≡ marks.now) × (seat.old.marks ≡ marks.now) }
    requires there { async_no < MAX_ASYNCS }
{
    let before = marks.take(taker, async_no);
    marks.send(seat, async_no)?;
    let first = marks.take(taker, async_no);
    marks.send(seat, async_no)?;
    Ok((before, first, marks.take(taker, async_no)))
}

/// What a new loop takes so.
fn taken_anew(alloc: Global, async_no: u32) -> Result<(u64, u64, u64), Fail>
    requires { async_no < MAX_ASYNCS }
{
    let (marks, mut taker, mut seat) = one_sender(alloc)?;
    let taken = take_thrice(&marks, &mut taker, &mut seat, async_no);
    drop((marks, taker, seat));
    Ok(taken?)
}

#[test]
fn sends_between_two_takes_are_taken(rt: HostRuntime) -> Result<(), Fail> {
    for async_no in 0..MAX_ASYNCS as u32 {
        shows(&rt, taken_anew(rt.alloc(), async_no)?, (0, 1, 1));
    }
    Ok(())
}

#[test]
fn an_own_send_is_taken_behind_those_of_others(rt: HostRuntime) -> Result<(), Fail> {
    let (marks, mut taker, seat) = one_sender(rt.alloc())?;
    let seat = send_times(&marks, seat, 5);
    let theirs = marks.take(&mut taker, 0);
    shows(&rt, marks.send_own(&mut taker, 0), Ok(()));
    let own = marks.take(&mut taker, 0);
    drop(seat);
    shows(&rt, (theirs, own), (5, 1));
    Ok(())
}

#[test]
fn a_joined_seats_sends_are_taken(rt: HostRuntime) -> Result<(), Fail> {
    let (marks, mut taker, seat) = one_sender(rt.alloc())?;
    let seat = send_times(&marks, seat, 5);
    let before = marks.take(&mut taker, 0);
    marks.join(&mut taker, seat);
    shows(&rt, before + marks.take(&mut taker, 0), 5);
    Ok(())
}

/// Sends by the loop itself, so often to this async.
fn send_own_times(marks: &Marks, taker: &mut TakeSeat, async_no: u32, times: u32)
    requires { (taker.old.marks ≡ marks.now) × (async_no < MAX_ASYNCS) }
    ensures { taker.new.marks ≡ marks.now }
{
    for _ in 0..times {
        let _ = marks.send_own(taker, async_no);
    }
}

#[test]
fn each_async_counts_by_itself(rt: HostRuntime) -> Result<(), Fail> {
    let (marks, mut taker, _seats) = Marks::new(rt.alloc(), 0)?;
    for async_no in 0..MAX_ASYNCS as u32 {
        send_own_times(&marks, &mut taker, async_no, async_no + 1);
    }
    for async_no in 0..MAX_ASYNCS as u32 {
        shows(
            &rt,
            marks.take(&mut taker, async_no),
            u64::from(async_no) + 1,
        );
        shows(&rt, marks.take(&mut taker, async_no), 0);
    }
    Ok(())
}

/// The marks of a loop with as many send seats as may be.
fn most_senders(alloc: Global) -> Result<(Marks, TakeSeat, Vec<SendSeat>), AllocError>
    ensures taker { IfOk result (λ m. m.1.marks ≡ m.0) }
    ensures senders { IfOk result (λ m. All (λ s. s.marks ≡ m.0) m.2.items) }
{
    Marks::new(alloc, MAX_SEND_SEATS)
}

/// Sends once to the last async, and joins.
fn send_and_join(marks: &Marks, taker: &mut TakeSeat, mut seat: SendSeat) -> Result<(), SendsUsedUp>
    requires { (taker.old.marks ≡ marks.now) × (seat.marks ≡ marks.now) }
    ensures { taker.new.marks ≡ marks.now }
{
    let sent = marks.send(&mut seat, LAST);
    marks.join(taker, seat);
    sent
}

#[test]
fn all_send_seats_send_and_join(rt: HostRuntime) -> Result<(), Fail> {
    let (marks, mut taker, mut seats) = most_senders(rt.alloc())?;
    while let Some(seat) = seats.pop() {
        shows(&rt, send_and_join(&marks, &mut taker, seat), Ok(()));
    }
    shows(&rt, marks.take(&mut taker, LAST), MAX_SEND_SEATS as u64);
    Ok(())
}

/// What a loop took while others sent: the sum, and how many takes found something.
#[derive(Drop)]
struct Taken {
    taker: TakeSeat,
    sum: u64,
    callbacks: u64,
}

/// Takes so often from async 0.
fn take_turns(marks: &Marks, mut taker: TakeSeat, turns: u32) -> Taken
    requires { taker ≡ new_taker marks.now 3 }
    ensures taker { (result.taker.marks ≡ marks.now) × (result.taker.own ≡ none_counted) × (result.taker.joined ≡ []) × (result.taker.apart ≡ 3) }
    ensures sum { slice_index result.taker.taken 0 ≡ result.sum }
    ensures callbacks { result.callbacks ≤ result.sum }
{
    let mut sum = 0;
    let mut callbacks = 0;
    for _ in 0..turns {
        let found = marks.take(&mut taker, 0);
        sum += found;
        if found > 0 {
            callbacks += 1;
        }
        yield_now();
    }
    Taken {
        taker,
        sum,
        callbacks,
    }
}

/// Three threads send 5, 7 and 11 times.
fn three_senders<R: Threads + Sync>(
    rt: &R,
    marks: &Marks,
    one: SendSeat,
    two: SendSeat,
    three: SendSeat,
) -> (SendSeat, SendSeat, SendSeat)
    requires { (one ≡ new_sender marks.now) × (two ≡ new_sender marks.now) × (three ≡ new_sender marks.now) }
    ensures own { (result.0.marks ≡ marks.now) × (result.1.marks ≡ marks.now) × (result.2.marks ≡ marks.now) }
    ensures sent { (slice_index result.0.sends 0 ≡ 5) × (slice_index result.1.sends 0 ≡ 7) × (slice_index result.2.sends 0 ≡ 11) }
{
    let (one, (two, three)) = join(
        rt,
        move || -> SendSeat
            requires { one ≡ new_sender marks.now }
            ensures { (result.marks ≡ marks.entry.now) × (slice_index result.sends 0 ≡ 5) }
        { send_times(marks, one, 5) },
        move || -> (SendSeat, SendSeat)
            requires { (two ≡ new_sender marks.now) × (three ≡ new_sender marks.now) × IsSync R.row }
            ensures own { (result.0.marks ≡ marks.entry.now) × (result.1.marks ≡ marks.entry.now) }
            ensures sent { (slice_index result.0.sends 0 ≡ 7) × (slice_index result.1.sends 0 ≡ 11) }
        { two_senders(rt, marks, two, three) },
    );
    (one, two, three)
}

/// Two threads send 7 and 11 times.
fn two_senders<R: Threads + Sync>(
    rt: &R,
    marks: &Marks,
    two: SendSeat,
    three: SendSeat,
) -> (SendSeat, SendSeat)
    requires { (two ≡ new_sender marks.now) × (three ≡ new_sender marks.now) }
    ensures own { (result.0.marks ≡ marks.now) × (result.1.marks ≡ marks.now) }
    ensures sent { (slice_index result.0.sends 0 ≡ 7) × (slice_index result.1.sends 0 ≡ 11) }
{
    join(
        rt,
        move || -> SendSeat
            requires { two ≡ new_sender marks.now }
            ensures { (result.marks ≡ marks.entry.now) × (slice_index result.sends 0 ≡ 7) }
        { send_times(marks, two, 7) },
        move || -> SendSeat
            requires { three ≡ new_sender marks.now }
            ensures { (result.marks ≡ marks.entry.now) × (slice_index result.sends 0 ≡ 11) }
        { send_times(marks, three, 11) },
    )
}

/// Three threads send while the loop takes. Then their seats are joined, and it takes once more.
fn race<R: Threads + Sync>(rt: &R, alloc: Global) -> Result<Taken, AllocError>
    ensures sum { IfOk result (λ t. t.sum ≡ 23) }
    ensures callbacks { IfOk result (λ t. t.callbacks ≤ 23) }
{
    let (marks, taker, mut seats) = Marks::new(alloc, 3)?;
    let (Some(one), Some(two), Some(three)) = (seats.pop(), seats.pop(), seats.pop()) else {
        unreachable!()
    };
    let marks = &marks;
    let (mut taken, (one, two, three)) = join(
        rt,
        move || -> Taken
            requires { taker ≡ new_taker marks.now 3 }
            ensures taker { (result.taker.marks ≡ marks.entry.now) × (result.taker.own ≡ none_counted) × (result.taker.joined ≡ []) × (result.taker.apart ≡ 3) }
            ensures sum { slice_index result.taker.taken 0 ≡ result.sum }
            ensures callbacks { result.callbacks ≤ result.sum }
        { take_turns(marks, taker, 1000) },
        move || -> (SendSeat, SendSeat, SendSeat)
            requires { (one ≡ new_sender marks.now) × (two ≡ new_sender marks.now) × (three ≡ new_sender marks.now) × IsSync R.row }
            ensures own { (result.0.marks ≡ marks.entry.now) × (result.1.marks ≡ marks.entry.now) × (result.2.marks ≡ marks.entry.now) }
            ensures sent { (slice_index result.0.sends 0 ≡ 5) × (slice_index result.1.sends 0 ≡ 7) × (slice_index result.2.sends 0 ≡ 11) }
        { three_senders(rt, marks, one, two, three) },
    );
    marks.join(&mut taken.taker, one);
    marks.join(&mut taken.taker, two);
    marks.join(&mut taken.taker, three);
    let found = marks.take(&mut taken.taker, 0);
    taken.sum += found;
    if found > 0 {
        taken.callbacks += 1;
    }
    Ok(taken)
}

#[test]
fn three_threads_sends_are_taken_once(rt: HostRuntime) -> Result<(), Fail> {
    let taken = race(&rt, rt.alloc())?;
    shows(&rt, taken.sum, 23);
    shows(&rt, (1..=23).contains(&taken.callbacks), true);
    Ok(())
}

#[test]
fn limits_and_their_text(rt: HostRuntime) -> Result<(), Fail> {
    let limits = (MAX_ASYNCS, MAX_SEND_SEATS, MAX_SENDS);
    shows(&rt, limits, (16, 64, 4_294_967_296));
    let text = format!(in rt.alloc(); "{SendsUsedUp}")?;
    check_told(&rt, text.as_str(), "the seat's sends are used up");
    Ok(())
}
