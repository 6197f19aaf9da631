// From a log to its text.

ghost use Rattle.std.specs.Prelude.{◌≡◌, ◌++◌, ◌∷◌, codes, decimal, string_bytes, OnOk, IfOk};
ghost use Rattle.script.specs.Text.{phase_word, kind_word, callback_words, spaced, ending_words, work_words, emit_words, line_of, log_text};

use events::ended::{Ended, Ending};
use events::phase::{EntryKind, Phase};
use std::alloc::{AllocError, Global};
use world_log::{
    CollectOutcome, FinishOutcome, JobEnd, JobId, Log, LogEntry, PostOutcome, StartOutcome,
};

/// The text of a log: a line for each entry, the oldest first.
///
/// A line is words with one space between them and one line feed at its end. The result after `done`, the values
/// after `emit` and the answer of a cancel are signed, and all other numbers are unsigned. The only error is lack of
/// memory.
pub fn print(alloc: Global, log: &Log) -> Result<String, AllocError>
    ensures { IfOk result (λ text. string_bytes text ≡ log_text log.now.entries) }
{
    let mut text = String::new(alloc);
    for entry in log.entries() {
        write_line(&mut text, entry)?;
    }
    Ok(text)
}

/// The line of one entry, as `print` has it. The only error is out of memory.
pub fn print_entry(alloc: Global, entry: &LogEntry) -> Result<String, AllocError>
    ensures { IfOk result (λ text. string_bytes text ≡ line_of entry.now) }
{
    let mut text = String::new(alloc);
    write_line(&mut text, entry)?;
    Ok(text)
}

fn write_line(text: &mut String, entry: &LogEntry) -> Result<(), AllocError>
    ensures { OnOk result (string_bytes text.new ≡ string_bytes text.old ++ line_of entry.now) }
{
    match entry {
        LogEntry::Entered {
            loop_no,
            phase,
            now,
        } => { writeln!(text, "loop {loop_no} enter {} {now}", phase_word(*phase)) }
        LogEntry::Ran {
            loop_no,
            kind,
            number,
            ended,
            emits,
        } => { write_run(text, *loop_no, *kind, *number, ended, emits.as_slice()) }
        LogEntry::Skipped {
            loop_no,
            kind,
            number,
        } => { write_skip(text, *loop_no, *kind, *number) }
        LogEntry::Over { loop_no } => writeln!(text, "loop {loop_no} over"),
        LogEntry::Failed { loop_no } => writeln!(text, "loop {loop_no} failed"),
        LogEntry::Post { loop_no, outcome } => write_post(text, *loop_no, *outcome),
        LogEntry::Take { worker, job } => write_take(text, *worker, *job),
        LogEntry::Start { worker, outcome } => write_start(text, *worker, *outcome),
        LogEntry::Finish { worker, outcome } => write_finish(text, *worker, *outcome),
        LogEntry::Collect { loop_no, outcome } => write_collect(text, *loop_no, *outcome),
        LogEntry::Send {
            loop_no,
            async_no,
            is_refused,
        } => { write_send(text, *loop_no, *async_no, *is_refused) }
        LogEntry::Cancel {
            loop_no,
            request,
            answer,
        } => { writeln!(text, "cancel {loop_no} {request} answer {answer}") }
        LogEntry::Clock { loop_no, clock } => writeln!(text, "clock {loop_no} {clock}"),
    }
}

fn phase_word(phase: Phase) -> &'static str
    ensures { result.now ≡ phase_word phase }
{
    match phase {
        Phase::Begin => "begin",
        Phase::Timers => "timers",
        Phase::Idle => "idle",
        Phase::Poll => "poll",
        Phase::Check => "check",
        Phase::Closing => "closing",
    }
}

fn kind_word(kind: EntryKind) -> &'static str
    ensures { result.now ≡ kind_word kind }
{
    match kind {
        EntryKind::Start => "start",
        EntryKind::Main => "main",
        EntryKind::Timer => "timer",
        EntryKind::Idle => "idle",
        EntryKind::After => "after",
        EntryKind::Async => "async",
        EntryKind::Check => "check",
        EntryKind::Close => "close",
    }
}

fn write_run(
    text: &mut String,
    loop_no: u32,
    kind: EntryKind,
    number: u32,
    ended: &Ended,
    emits: &[u64],
) -> Result<(), AllocError>
    ensures { OnOk result (string_bytes text.new ≡ string_bytes text.old
        ++ line_of (LogEntry.Ran loop_no kind number ended.now emits.now)) }
{
    write_callback(text, loop_no, "run", kind, number)?;
    write_ending(text, &ended.ending)?;
    write!(text, " used {}", ended.used)?;
    write_emits(text, emits)?;
    text.push_str("\n")
}

fn write_skip(
    text: &mut String,
    loop_no: u32,
    kind: EntryKind,
    number: u32,
) -> Result<(), AllocError>
    ensures { OnOk result (string_bytes text.new ≡ string_bytes text.old
        ++ line_of (LogEntry.Skipped loop_no kind number)) }
{
    write_callback(text, loop_no, "skip", kind, number)?;
    text.push_str("\n")
}

fn write_callback(
    text: &mut String,
    loop_no: u32,
    verb: &str,
    kind: EntryKind,
    number: u32,
) -> Result<(), AllocError>
    ensures { OnOk result (string_bytes text.new ≡ string_bytes text.old
        ++ codes "loop" ++ spaced (decimal loop_no ∷ verb.now ∷ callback_words kind number)) }
{
    let kind = kind_word(kind);
    write!(text, "loop {loop_no} {verb} {kind} {number}")
}

fn write_ending(text: &mut String, ending: &Ending) -> Result<(), AllocError>
    ensures { OnOk result (string_bytes text.new
        ≡ string_bytes text.old ++ spaced (ending_words ending.now)) }
{
    match ending {
        Ending::Return(_) => text.push_str(" return"),
        Ending::Trap(trap) => write!(text, " trap {}", trap.code()),
        Ending::Depth => text.push_str(" depth"),
        Ending::Spent => text.push_str(" spent"),
    }
}

fn write_emits(text: &mut String, values: &[u64]) -> Result<(), AllocError>
    ensures { OnOk result (string_bytes text.new
        ≡ string_bytes text.old ++ spaced (emit_words values.now)) }
{
    if values.is_empty() {
        return Ok(());
    }
    text.push_str(" emit")?;
    for value in values {
        write!(text, " {}", value.cast_signed())?;
    }
    Ok(())
}

fn write_post(text: &mut String, loop_no: u32, outcome: PostOutcome) -> Result<(), AllocError>
    ensures { OnOk result (string_bytes text.new
        ≡ string_bytes text.old ++ line_of (LogEntry.Post loop_no outcome)) }
{
    match outcome {
        PostOutcome::Request(request) => writeln!(text, "post {loop_no} request {request}"),
        PostOutcome::Nothing => writeln!(text, "post {loop_no} none"),
        PostOutcome::Full => writeln!(text, "post {loop_no} full"),
    }
}

fn write_take(text: &mut String, worker: u32, job: Option<JobId>) -> Result<(), AllocError>
    ensures { OnOk result (string_bytes text.new
        ≡ string_bytes text.old ++ line_of (LogEntry.Take worker job)) }
{
    match job {
        Some(JobId { loop_no, request }) => {
            writeln!(text, "take {worker} loop {loop_no} request {request}")
        }
        None => writeln!(text, "take {worker} none"),
    }
}

fn write_start(text: &mut String, worker: u32, outcome: StartOutcome) -> Result<(), AllocError>
    ensures { OnOk result (string_bytes text.new
        ≡ string_bytes text.old ++ line_of (LogEntry.Start worker outcome)) }
{
    match outcome {
        StartOutcome::Begun(JobId { loop_no, request }) => {
            writeln!(
                text,
                "start {worker} loop {loop_no} request {request} begun"
            )
        }
        StartOutcome::Dropped(JobId { loop_no, request }) => {
            writeln!(
                text,
                "start {worker} loop {loop_no} request {request} dropped"
            )
        }
        StartOutcome::Nothing => writeln!(text, "start {worker} none"),
    }
}

fn write_finish(text: &mut String, worker: u32, outcome: FinishOutcome) -> Result<(), AllocError>
    ensures { OnOk result (string_bytes text.new
        ≡ string_bytes text.old ++ line_of (LogEntry.Finish worker outcome)) }
{
    match outcome {
        FinishOutcome::Ended(JobId { loop_no, request }, ending) => {
            write!(text, "finish {worker} loop {loop_no} request {request}")?;
            write_work_ending(text, ending)?;
            text.push_str("\n")
        }
        FinishOutcome::Nothing => writeln!(text, "finish {worker} none"),
    }
}

fn write_work_ending(text: &mut String, ending: JobEnd) -> Result<(), AllocError>
    ensures { OnOk result (string_bytes text.new
        ≡ string_bytes text.old ++ spaced (work_words ending)) }
{
    match ending {
        JobEnd::Done(value) => write!(text, " done {}", value.cast_signed()),
        JobEnd::Trap(trap) => write!(text, " trap {}", trap.code()),
        JobEnd::Depth => text.push_str(" depth"),
        JobEnd::Spent => text.push_str(" spent"),
        JobEnd::NoMemory => text.push_str(" nomemory"),
    }
}

fn write_collect(text: &mut String, loop_no: u32, outcome: CollectOutcome) -> Result<(), AllocError>
    ensures { OnOk result (string_bytes text.new
        ≡ string_bytes text.old ++ line_of (LogEntry.Collect loop_no outcome)) }
{
    match outcome {
        CollectOutcome::Request(request) => writeln!(text, "collect {loop_no} request {request}"),
        CollectOutcome::Stranger => writeln!(text, "collect {loop_no} stranger"),
        CollectOutcome::Nothing => writeln!(text, "collect {loop_no} none"),
    }
}

fn write_send(
    text: &mut String,
    loop_no: u32,
    async_no: u32,
    is_refused: bool,
) -> Result<(), AllocError>
    ensures { OnOk result (string_bytes text.new
        ≡ string_bytes text.old ++ line_of (LogEntry.Send loop_no async_no is_refused)) }
{
    if is_refused {
        writeln!(text, "send {loop_no} {async_no} refused")
    } else {
        writeln!(text, "send {loop_no} {async_no}")
    }
}
