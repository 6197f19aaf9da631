// From the command line to a command.

ghost use Rattle.std.specs.Prelude.{◌≤◌, IfOk, vec_len};
ghost use Rattle.words.specs.Inputs.{spelled_count};

use crate::command::{Command, Invocation, ServeCommand, WorkInput, WorkOutput, WorkRequest};
use crate::grammar::{self, INPUT, OUTPUT, RAW, TEXT, TRACE};
use crate::number::{decimal, small_decimal};
use crate::refused::Refused;
use clap::ArgMatches;
use clap::error::ErrorKind;
use events::settings::LoopSettings;
use hex::FromHexError;
use limits::{MAX_BYTES, MAX_DEPTH, MAX_LOOPS, MAX_WORKERS};
use std::alloc::Global;

/// The file that stands for standard input.
const STANDARD_INPUT: &str = "/dev/stdin";

fn refused(alloc: Global, error: clap::Error) -> Refused {
    let shown = !error.use_stderr();
    match (error.kind(), error.to_string(alloc)) {
        (ErrorKind::OutOfMemory, _) | (_, Err(_)) => Refused::Memory,
        (_, Ok(text)) if shown => Refused::Help(text),
        (ErrorKind::InvalidSubcommand | ErrorKind::MissingSubcommand, Ok(text)) =>
            Refused::NoCommand(text),
        (_, Ok(text)) => Refused::Usage(text),
    }
}

/// An argument that the grammar requires.
fn word<'a>(matches: &ArgMatches<'a>, id: &str) -> Result<&'a str, Refused> {
    matches.get_str(id).ok_or(Refused::Arguments)
}

fn text(alloc: Global, matches: &ArgMatches<'_>, id: &str) -> Result<String, Refused> {
    Ok(String::from_str(alloc, word(matches, id)?)?)
}

/// The number of an option, within two bounds.
fn option(
    alloc: Global,
    matches: &ArgMatches<'_>,
    name: &str,
    least: u64,
    most: u64,
) -> Result<u64, Refused>
    ensures { IfOk result (λ number. (least ≤ number) × (number ≤ most)) }
{
    let value = word(matches, name)?;
    match decimal(value) {
        Some(number) if least <= number && number <= most => Ok(number),
        _ => Err(Refused::Usage(format!(in alloc;
            "error: invalid value '{value}' for '--{name} <N>': expected a whole number from {least} to {most}\n\nFor more information, try '--help'."
        )?)),
    }
}

fn fuel(alloc: Global, matches: &ArgMatches<'_>) -> Result<u64, Refused> {
    option(alloc, matches, "fuel", 0, u64::MAX)
}

fn depth(alloc: Global, matches: &ArgMatches<'_>) -> Result<u32, Refused>
    ensures { IfOk result (λ depth. (1 ≤ depth) × (depth ≤ MAX_DEPTH)) }
{
    let depth = option(alloc, matches, "depth", 1, MAX_DEPTH.into())?;
    Ok(depth as u32)
}

fn is_traced(matches: &ArgMatches<'_>) -> bool {
    matches.get_flag(TRACE)
}

fn check(alloc: Global, matches: &ArgMatches<'_>) -> Result<Command, Refused> {
    let file = text(alloc, matches, "file")?;
    Ok(Command::Check { file })
}

fn arguments(alloc: Global, matches: &ArgMatches<'_>) -> Result<Vec<String>, Refused> {
    let mut found = Vec::new(alloc);
    for argument in matches.get_strs("arguments").unwrap_or(&[]) {
        found.push(String::from_str(alloc, argument)?)?;
    }
    Ok(found)
}

fn invoke(alloc: Global, matches: &ArgMatches<'_>) -> Result<Command, Refused> {
    Ok(Command::Invoke(Invocation {
        fuel: fuel(alloc, matches)?,
        depth: depth(alloc, matches)?,
        file: text(alloc, matches, "file")?,
        name: text(alloc, matches, "name")?,
        arguments: arguments(alloc, matches)?,
        is_traced: is_traced(matches),
    }))
}

/// Why a word is not hexadecimal. The first character that is no digit tells more than how many there are.
fn digits_fault(word: &str, fault: FromHexError) -> FromHexError {
    for (index, c) in word.char_indices() {
        if !c.is_ascii_hexdigit() {
            return FromHexError::InvalidHexCharacter { c, index };
        }
    }
    fault
}

/// The bytes that a word spells in hexadecimal.
fn bytes(alloc: Global, word: &str) -> Result<Vec<u8>, Refused>
    ensures { IfOk result (λ bytes. vec_len bytes ≤ MAX_BYTES) }
{
    match hex::decode(alloc, word) {
        Ok(bytes) if bytes.len() <= MAX_BYTES => Ok(bytes),
        Ok(bytes) => Err(Refused::TooManyBytes(bytes.len())),
        Err(FromHexError::OutOfMemory) => Err(Refused::Memory),
        Err(fault) => Err(Refused::Digits(digits_fault(word, fault))),
    }
}

/// The bytes of a text.
fn bytes_of(alloc: Global, text: &str) -> Result<Vec<u8>, Refused>
    ensures { IfOk result (λ bytes. vec_len bytes ≤ MAX_BYTES) }
{
    if text.len() > MAX_BYTES {
        return Err(Refused::TooManyBytes(text.len()));
    }
    Ok(Vec::from_slice(alloc, text.as_bytes())?)
}

/// Where the input of a job comes from: HEX, `--text` or `--in`, at most one; empty without them.
fn input(alloc: Global, matches: &ArgMatches<'_>) -> Result<WorkInput, Refused>
    ensures { IfOk result (λ input. spelled_count input ≤ MAX_BYTES) }
{
    if let Some(text) = matches.get_str(TEXT) {
        return Ok(WorkInput::Bytes(bytes_of(alloc, text)?));
    }
    let name = match matches.get_str(INPUT) {
        Some("-") => STANDARD_INPUT,
        Some(name) => name,
        None => {
            let digits = matches.get_str("bytes").unwrap_or("");
            return Ok(WorkInput::Bytes(bytes(alloc, digits)?));
        }
    };
    Ok(WorkInput::File(String::from_str(alloc, name)?))
}

/// Where the reply of a job goes: `--out` or `--raw`, at most one.
fn output(alloc: Global, matches: &ArgMatches<'_>) -> Result<WorkOutput, Refused> {
    if matches.get_flag(RAW) {
        return Ok(WorkOutput::Standard);
    }
    match matches.get_str(OUTPUT) {
        Some("-") => Ok(WorkOutput::Standard),
        Some(name) => Ok(WorkOutput::File(String::from_str(alloc, name)?)),
        None => Ok(WorkOutput::Line),
    }
}

/// The argument of `uv_work`.
fn operation(alloc: Global, matches: &ArgMatches<'_>) -> Result<u32, Refused> {
    let word = word(matches, "operation")?;
    match small_decimal(word) {
        Some(number) => Ok(number),
        None => Err(Refused::Operation(String::from_str(alloc, word)?)),
    }
}

fn work(alloc: Global, matches: &ArgMatches<'_>) -> Result<Command, Refused> {
    let operation = operation(alloc, matches)?;
    let input = input(alloc, matches)?;
    Ok(Command::Work(WorkRequest {
        fuel: fuel(alloc, matches)?,
        depth: depth(alloc, matches)?,
        file: text(alloc, matches, "file")?,
        operation,
        input,
        output: output(alloc, matches)?,
        is_traced: is_traced(matches),
    }))
}

fn script(alloc: Global, matches: &ArgMatches<'_>) -> Result<Command, Refused> {
    let file = text(alloc, matches, "file")?;
    Ok(Command::Script { file })
}

fn serve(alloc: Global, matches: &ArgMatches<'_>) -> Result<Command, Refused> {
    let loops = option(alloc, matches, "loops", 1, MAX_LOOPS.into())? as u32;
    let workers = option(alloc, matches, "workers", 1, MAX_WORKERS.into())? as u32;
    let fuel = fuel(alloc, matches)?;
    let depth = depth(alloc, matches)?;
    let work_fuel = option(alloc, matches, "work-fuel", 0, u64::MAX)?;
    Ok(Command::Serve(ServeCommand {
        file: text(alloc, matches, "file")?,
        loops,
        workers,
        settings: LoopSettings {
            fuel,
            work_fuel,
            depth,
        },
        is_traced: is_traced(matches),
    }))
}

/// The command among the words, if there is one.
fn command_found(
    alloc: Global,
    found: Option<(&str, &ArgMatches<'_>)>,
) -> Option<Result<Command, Refused>> {
    let (name, matches) = found?;
    match name {
        "check" => Some(check(alloc, matches)),
        "invoke" => Some(invoke(alloc, matches)),
        "work" => Some(work(alloc, matches)),
        "script" => Some(script(alloc, matches)),
        "serve" => Some(serve(alloc, matches)),
        _ => None,
    }
}

fn missing(alloc: Global, program: &mut clap::Command<'_>) -> Refused {
    match program.error(ErrorKind::MissingSubcommand, "no command was given") {
        Ok(error) => refused(alloc, error),
        Err(_) => Refused::Memory,
    }
}

/// The command of the program's words.
fn command_of<'a>(
    alloc: Global,
    program: &mut clap::Command<'a>,
    words: &'a [String],
) -> Result<Command, Refused> {
    let matches = match program.try_get_matches_from_mut(words) {
        Ok(matches) => matches,
        Err(error) => return Err(refused(alloc, error)),
    };
    match command_found(alloc, matches.subcommand()) {
        Some(command) => command,
        None => Err(missing(alloc, program)),
    }
}

/// The command of these words, the first of which is the program's name.
///
/// Returns `Help` if they ask for help or for the version; `Operation`, `Digits` or `TooManyBytes` if the argument or the input of `work`
/// is malformed; `Memory` if an allocation failed; `NoCommand` if the command is unknown or missing; otherwise `Usage`.
pub fn parse(alloc: Global, words: &[String]) -> Result<Command, Refused> {
    let mut program = grammar::program(alloc)?;
    command_of(alloc, &mut program, words)
}
