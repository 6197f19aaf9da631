// A loop's seats are what it shares.

ghost use Rattle.std.specs.Prelude.{◌≡◌};
ghost use Rattle.phases.specs.View.{IsAbove};

use crate::hall::with_workers;
use crate::showing::shows;
use marks::Marks;
use phases::Shared;
use pool::Seats;
use std::alloc::{AllocError, Global};
use std::test::Fail;

/// Opens and cancels request 1, and sends to async 0 and takes.
fn shares<B: Shared>(shared: &mut B) -> (bool, bool, u64)
    requires { IsAbove (B.calls.view shared.old) 1 }
{
    shared.open(3, 1);
    let cancelled = shared.cancel(3, 1);
    let sent = shared.send(0);
    (cancelled, sent, shared.take(0))
}

/// What new seats share, and the loop's number in the seat that they give back.
fn seats_share(alloc: Global) -> Result<((bool, bool, u64), u32), AllocError> {
    let (claims, loop_seat, _) = with_workers(alloc, 0)?;
    let (marks, taker, _send_seats) = Marks::new(alloc, 0)?;
    let mut seats = Seats::new(&claims, loop_seat, &marks, taker);
    let shared = shares(&mut seats);
    let (loop_seat, _taker) = seats.into_seats();
    Ok((shared, loop_seat.loop_no()))
}

#[test]
fn seats_are_what_a_loop_shares(rt: HostRuntime) -> Result<(), Fail> {
    shows(&rt, seats_share(rt.alloc())?, ((true, true, 1), 0));
    Ok(())
}
