// The board that loops and workers share, and the passes with which they step.

ghost use Rattle.std.specs.Prelude.{◌≡◌, ◌<◌, ◌≤◌, ◌∷◌, ◌++◌, ℕ, length, map, All, IfOk, OnOk, IfErr, IfSome, IfNone};
ghost use Rattle.limits.specs.declared.TheConstants.{MAX_LOOPS};
ghost use Rattle.board.specs.Views.{IsIdle, IsWhole, HasAll, makers_at, one_later};
ghost use Rattle.board.specs.Boards.{IsPassOf, IsNewPass, AreNumbered, IsEventOf, Posts, TakesJob, Puts, Collects};
ghost use Rattle.board.specs.Boards.{IsNewGathering, IsGatheringOf, JoinsPass, GathersReplies, EachMaker, AreAllIn, AreWhole, AreRepliesWhole};

use crate::event::{Event, Heard};
use crate::event_count::EventCount;
use crate::job::JobBox;
use crate::line::{Any, Fits, Hand, Line, Maker};
use limits::{MAX_JOBS, MAX_REPLIES};
use order::Reply;
use std::alloc::{AllocError, Global};
use std::marker::Model;
use std::sync::Wait;
use std::sync::atomic::{AtomicBool, Ordering};

/// A reply fits the line whose key is the number of its order's loop.
pub struct OfLoop;

impl Fits<Reply> for OfLoop {
    ghost use Rattle.std.specs.Prelude.{◌≡◌};

    ghost fits = { λ key r. r.order.loop_no ≡ key };
}

/// A board: a bounded queue of jobs, one of replies for each loop, and whether it was closed.
///
/// To a contract it is a `BoardView`: its lines, each with how many it has places for.
#[derive(Drop)]
pub struct Board<J = JobBox> {
    jobs: Line<J, Any>,
    replies: Vec<Line<Reply, OfLoop>>,
    closed: AtomicBool,
}

impl<J> Model for Board<J> {
    ghost use Rattle.std.specs.Prelude.{◌≤◌, length};
    ghost use Rattle.limits.specs.declared.TheConstants.{MAX_LOOPS};
    ghost use Rattle.board.specs.Boards.{BoardView};

    ghost Value = { BoardView };

    ghost view = { λ b. record { jobs = b.jobs; replies = b.replies.items } };

    ghost invariant = { λ b. length b.replies.items ≤ MAX_LOOPS };
}

/// With which one thread steps on a board. To a contract it is a `PassView`: what was done with it on each line.
#[derive(Drop)]
pub struct Pass<J = JobBox> {
    jobs: Hand<J>,
    replies: Vec<Hand<Reply>>,
}

impl<J> Model for Pass<J> {
    ghost use Rattle.board.specs.Boards.{PassView, AreOfTheirLoops};

    ghost Value = { PassView J };

    ghost use Rattle.order.specs.contracts.reply.Reply as reply;
    ghost use Rattle.std.specs.Coded.{codes};

    ghost coded = { Prim.hlevel (codes, reply.the_row.coded) };

    ghost view = { λ p. record { jobs = p.jobs; replies = p.replies.items } };

    ghost invariant = { λ p. AreOfTheirLoops p.replies.items };
}

/// With which all passes of a board are taken in, once their threads have ended. To a contract it is a `GatheringView`: what was taken
/// in of each line.
#[derive(Drop)]
pub struct Gathering<J = JobBox> {
    jobs: Maker<J>,
    replies: Vec<Maker<Reply>>,
}

impl<J> Model for Gathering<J> {
    ghost use Rattle.board.specs.Boards.{GatheringView};

    ghost Value = { GatheringView J };

    ghost use Rattle.order.specs.contracts.reply.Reply as reply;
    ghost use Rattle.std.specs.Coded.{codes};

    ghost coded = { Prim.hlevel (codes, reply.the_row.coded) };

    ghost view = { λ g. record { jobs = g.jobs; replies = g.replies.items } };
}

impl<J> Pass<J> {
    /// Its hands.
    fn into_hands(self) -> (Hand<J>, Vec<Hand<Reply>>)
        ensures { (result.0 ≡ self.jobs) × (result.1.items ≡ self.replies) }
    {
        let Pass { jobs, replies } = self;
        (jobs, replies)
    }
}

impl<J: Drop> Board<J> {
    /// A board for 1 to `MAX_LOOPS` loops, with all its lines empty, and passes that have done nothing, numbered from 1. There is at
    /// least one.
    ///
    /// The only error is that memory ran out; no later call takes any.
    pub fn new(
        alloc: Global,
        loops: u32,
        passes: usize,
    ) -> Result<(Board<J>, Vec<Pass<J>>), AllocError>
        requires loops { (0 < loops) × (loops ≤ MAX_LOOPS) }
        requires passes { 0 < passes }
        ensures jobs { IfOk result (λ b. b.0.jobs.places ≡ MAX_JOBS) }
        ensures replies { IfOk result (λ b. (length b.0.replies ≡ loops) × All (λ l. l.places ≡ MAX_REPLIES) b.0.replies) }
        ensures count { IfOk result (λ b. length b.1.items ≡ passes) }
        ensures passes { IfOk result (λ b. All (IsNewPass b.0) b.1.items) }
        ensures numbers { IfOk result (λ b. AreNumbered b.1.items) }
    {
        let (board, passes, _) = Board::with_gathering(alloc, loops, passes)?;
        Ok((board, passes))
    }

    /// As `new`, and with what the passes are taken in by at the end.
    pub fn with_gathering(
        alloc: Global,
        loops: u32,
        passes: usize,
    ) -> Result<(Board<J>, Vec<Pass<J>>, Gathering<J>), AllocError>
        requires loops { (0 < loops) × (loops ≤ MAX_LOOPS) }
        requires passes { 0 < passes }
        ensures jobs { IfOk result (λ b. b.0.jobs.places ≡ MAX_JOBS) }
        ensures replies { IfOk result (λ b. (length b.0.replies ≡ loops) × All (λ l. l.places ≡ MAX_REPLIES) b.0.replies) }
        ensures count { IfOk result (λ b. length b.1.items ≡ passes) }
        ensures passes { IfOk result (λ b. All (IsNewPass b.0) b.1.items) }
        ensures numbers { IfOk result (λ b. AreNumbered b.1.items) }
        ensures gathering { IfOk result (λ b. IsNewGathering b.0 passes b.2) }
    {
        let (jobs, mut jobs_maker) = Line::new(alloc, MAX_JOBS, 0)?;
        let (replies, mut makers) = reply_lines(alloc, loops)?;
        let mut passes_made = Vec::with_capacity(alloc, passes)?;
        for _ in 0..passes {
            passes_made.push(Pass {
                replies: hands_of(alloc, replies.as_slice(), &mut makers)?,
                jobs: jobs.hand(&mut jobs_maker),
            })?;
        }
        let board = Board {
            jobs,
            replies,
            closed: AtomicBool::new(false),
        };
        let gathering = Gathering {
            jobs: jobs_maker,
            replies: makers,
        };
        Ok((board, passes_made, gathering))
    }

    /// Posts a job, by one push. It comes back where the line was full at some moment, or the pass has posted `2^64 - 1`
    /// jobs.
    pub fn post<R: Wait>(&self, rt: &R, pass: &mut Pass<J>, job: J) -> Result<(), J>
        requires { IsPassOf self.now pass.old }
        ensures own { IsPassOf self.now pass.new }
        ensures posted { OnOk result (Posts pass.old pass.new job) }
        ensures refused { IfErr result (λ x. (x ≡ job) × (pass.new ≡ pass.old)) }
    {
        self.jobs.give(rt, &mut pass.jobs, job)
    }

    /// Takes the front job, by one pop. `None` where it found none, and then nothing has changed.
    pub fn take<R: Wait>(&self, rt: &R, pass: &mut Pass<J>) -> Option<J>
        requires { IsPassOf self.now pass.old }
        ensures own { IsPassOf self.now pass.new }
        ensures taken { IfSome result (λ job. TakesJob pass.old pass.new job) }
        ensures none { IfNone result (pass.new ≡ pass.old) }
    {
        self.jobs.take(rt, &mut pass.jobs)
    }

    /// Puts a reply into the line of its order's loop, by one push. It comes back where that line was full at some moment.
    pub fn put_reply<R: Wait>(&self, rt: &R, pass: &mut Pass<J>, reply: Reply) -> Result<(), Reply>
        requires own { IsPassOf self.now pass.old }
        requires there { reply.order.loop_no < length self.now.replies }
        ensures own { IsPassOf self.now pass.new }
        ensures put { OnOk result (Puts pass.old pass.new reply) }
        ensures refused { IfErr result (λ x. (x ≡ reply) × (pass.new ≡ pass.old)) }
    {
        let loop_no = reply.order.loop_no as usize;
        self.replies[loop_no].give(rt, &mut pass.replies[loop_no], reply)
    }

    /// Takes the front reply of a loop, by one pop. `None` where it found none, and then nothing has changed.
    pub fn collect<R: Wait>(&self, rt: &R, pass: &mut Pass<J>, loop_no: u32) -> Option<Reply>
        requires own { IsPassOf self.now pass.old }
        requires there { loop_no < length self.now.replies }
        ensures own { IsPassOf self.now pass.new }
        ensures of_loop { IfSome result (λ r. r.order.loop_no ≡ loop_no) }
        ensures collected { IfSome result (λ r. Collects pass.old pass.new loop_no r) }
        ensures none { IfNone result (pass.new ≡ pass.old) }
    {
        let loop_no = loop_no as usize;
        self.replies[loop_no].take(rt, &mut pass.replies[loop_no])
    }

    /// Takes all passes in, in the order of their numbers, once their threads have ended. What was taken of a line was given there by
    /// one of the passes, and each gift was taken once at most.
    pub fn gather_all(&self, mut all: Gathering<J>, passes: Vec<Pass<J>>)
        requires new { IsNewGathering self.now (length passes.items) all }
        requires passes { All (IsPassOf self.now) passes.items }
        requires numbers { AreNumbered passes.items }
        ensures jobs { IsWhole (map (λ p. p.jobs) passes.items) }
        ensures replies { AreRepliesWhole (length self.now.replies) passes.items }
    {
        for pass in passes {
            self.gather(&mut all, pass);
        }
        self.count(&mut all);
    }

    /// Where all passes were taken in, what that means.
    fn count(&self, all: &mut Gathering<J>)
        requires own { IsGatheringOf self.now all.old }
        requires all { AreAllIn all.old }
        ensures jobs { IsWhole all.old.jobs.hands }
        ensures replies { AreWhole all.old.replies }
    {
        self.jobs.count(&mut all.jobs);
        count_replies(self.replies.as_slice(), &mut all.replies);
    }

    /// Takes a pass in.
    fn gather(&self, all: &mut Gathering<J>, pass: Pass<J>)
        requires own { IsPassOf self.now pass × IsGatheringOf self.now all.old }
        ensures own { IsGatheringOf self.now all.new }
        ensures gathered { JoinsPass all.old pass all.new }
    {
        let (jobs, replies) = pass.into_hands();
        self.jobs.gather(&mut all.jobs, jobs);
        gather_replies(self.replies.as_slice(), &mut all.replies, replies);
    }

    /// Tells workers to end, and wakes all that wait. The other calls go on as before.
    pub fn close(&self) {
        self.closed.store(true, Ordering::SeqCst);
        self.jobs.wake();
        for line in &self.replies {
            line.wake();
        }
    }

    /// What counts it.
    fn count_of(&self, event: Event) -> &EventCount
        requires { IsEventOf self.now event }
    {
        match event {
            Event::Posted => &self.jobs.given,
            Event::Taken => &self.jobs.taken,
            Event::Put(loop_no) => &self.replies[loop_no as usize].given,
            Event::Collected(loop_no) => &self.replies[loop_no as usize].taken,
        }
    }

    /// How often it was done up to now. Ask before looking for what is waited for, and then `wait`.
    pub fn listen(&self, event: Event) -> Heard
        requires { IsEventOf self.now event }
        ensures { result.event ≡ event }
    {
        Heard {
            event,
            events: self.count_of(event).events(),
        }
    }

    /// Sleeps until it was done again or the board is closed, unless that was so since `listen`.
    pub fn wait<R: Wait>(&self, rt: &R, heard: Heard)
        requires { IsEventOf self.now heard.event }
    {
        self.count_of(heard.event).wait(rt, heard.events);
    }

    /// Whether it was closed.
    pub fn is_closed(&self) -> bool {
        self.closed.load(Ordering::SeqCst)
    }

    /// For how many loops it is.
    pub fn loops(&self) -> u32
        ensures { result ≡ length self.now.replies }
    {
        self.replies.len() as u32
    }
}

/// An empty line of replies for each loop, whose key is the loop's number, and the makers of the lines.
fn reply_lines(
    alloc: Global,
    loops: u32,
) -> Result<(Vec<Line<Reply, OfLoop>>, Vec<Maker<Reply>>), AllocError>
    ensures lines { IfOk result (λ r. (length r.0.items ≡ loops) × All (λ l. l.places ≡ MAX_REPLIES) r.0.items) }
    ensures makers { IfOk result (λ r. r.1.items ≡ makers_at 1 0 r.0.items) }
{
    let mut lines = Vec::with_capacity(alloc, loops as usize)?;
    let mut makers = Vec::with_capacity(alloc, loops as usize)?;
    for loop_no in 0..loops {
        let (line, maker) = Line::new(alloc, MAX_REPLIES, loop_no)?;
        lines.push(line)?;
        makers.push(maker)?;
    }
    Ok((lines, makers))
}

/// A new hand on each of the lines.
fn hands_of(
    alloc: Global,
    lines: &[Line<Reply, OfLoop>],
    makers: &mut Vec<Maker<Reply>>,
) -> Result<Vec<Hand<Reply>>, AllocError>
    requires { map (λ m. m.line) makers.old.items ≡ map (λ l. l.id) lines.now }
    ensures makers { IfOk result (λ _. makers.new.items ≡ map one_later makers.old.items) }
    ensures lines { IfOk result (λ hands. map (λ h. h.line) hands.items ≡ map (λ m. m.line) makers.old.items) }
    ensures keys { IfOk result (λ hands. map (λ h. h.key) hands.items ≡ map (λ m. m.key) makers.old.items) }
    ensures numbers { IfOk result (λ hands. map (λ h. h.number) hands.items ≡ map (λ m. m.next) makers.old.items) }
    ensures idle { IfOk result (λ hands. All IsIdle hands.items) }
{
    let mut hands = Vec::with_capacity(alloc, lines.len())?;
    for i in 0..lines.len() {
        hands.push(lines[i].hand(&mut makers[i]))?;
    }
    Ok(hands)
}

/// Takes a hand of each of the lines in.
fn gather_replies(
    lines: &[Line<Reply, OfLoop>],
    makers: &mut Vec<Maker<Reply>>,
    mut hands: Vec<Hand<Reply>>,
)
    requires makers { map (λ m. m.line) makers.old.items ≡ map (λ l. l.id) lines.now }
    requires hands { map (λ h. h.line) hands.items ≡ map (λ l. l.id) lines.now }
    ensures makers { map (λ m. m.line) makers.new.items ≡ map (λ l. l.id) lines.now }
    ensures gathered { GathersReplies makers.old.items hands.items makers.new.items }
{
    while let Some(hand) = hands.pop() {
        let loop_no = hands.len();
        lines[loop_no].gather(&mut makers[loop_no], hand);
    }
}

/// What it means of each line that all hands were taken in.
fn count_replies(lines: &[Line<Reply, OfLoop>], makers: &mut Vec<Maker<Reply>>)
    requires makers { map (λ m. m.line) makers.old.items ≡ map (λ l. l.id) lines.now }
    requires all { EachMaker HasAll makers.old.items }
    ensures whole { AreWhole makers.old.items }
{
    for i in 0..lines.len() {
        lines[i].count(&mut makers[i]);
    }
}
