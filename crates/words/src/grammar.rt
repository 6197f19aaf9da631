// The grammar of the command line, and its help.

use clap::{Arg, ArgAction, Command};
use std::alloc::{AllocError, Global};

const FUEL_HELP: &str = "The fuel limit in instructions, 0 to 2^64 - 1";

const USED_HELP: &str = "Print the fuel used to standard error";

/// The option that asks for a trace.
pub(crate) const TRACE: &str = "trace";

/// The option that names a file with the input of a job.
pub(crate) const INPUT: &str = "in";

/// The option that has the input of a job as text.
pub(crate) const TEXT: &str = "text";

/// The option that names a file to write the reply to.
pub(crate) const OUTPUT: &str = "out";

/// The option that asks for only the reply.
pub(crate) const RAW: &str = "raw";

const PROGRAM_TEXT: &str = "\
Status: 0 success, also if `serve` prints `limit` or `waiting`; 1 a file, a script, memory or the output failed;
2 usage error; 3 a module is rejected; 4 a call did not return, or a loop failed.
Messages for 1 and 2, and explanations of results, go to standard error.

Example:
  wasmloop work examples/adds_one.wasm 41 00ff";

const CHECK_TEXT: &str = "\
Prints `accepted`, or the step that rejects the module, with the fault's number and name: `decode 10 Counts`,
`validate 1 Type` or `link 2 Name`. Standard error says where and why, and warns if an accepted module
lacks a table or exports that a loop needs.

Status: 0 accepted; 1 the file, memory or the output failed; 2 usage error; 3 rejected.

Example:
  wasmloop check examples/seven.wasm";

const INVOKE_TEXT: &str = "\
An argument is a whole number without a sign: an i32 from 0 to 4294967295, which is -1, and an i64 from 0
to 18446744073709551615, which is -1.

Prints how the call ended and the fuel used: `return 7 used 1` with the results as signed numbers, `trap 4 used 2`,
`depth used 64` (call-depth limit exceeded) or `spent used 1000000` (out of fuel); if the start function ended so,
`start trap 4 used 2`. If the call did not return, standard error says where and why.
Traps: 1 unreachable, 2 division by zero, 3 a quotient out of range, 4 an access outside the memory,
5 an index past the table, 6 an empty element, 7 a function of another type.

Status: 0 returned; 1 the file, memory or the output failed; 2 usage error, or no such function;
3 the module is rejected; 4 the call did not return.

Example:
  wasmloop invoke examples/table.wasm f 0";

const WORK_TEXT: &str = "\
Write -1 as 4294967295.

Prints `done 42 bytes 0`: the result as a signed number, the length of the reply, and its bytes, if any, in
hexadecimal; or `trap 4`, `depth`, `spent` or `nomemory`. See `invoke --help` for the numbers of traps.
With --out the bytes go to a file and are not printed. With --raw or --out - standard output has only the bytes,
and the line goes to standard error. If the work did not return, standard error says where and why.

Status: 0 done; 1 the file, memory or the output failed; 2 usage error, or no function uv_work;
3 the module is rejected; 4 the work did not return.

Example:
  wasmloop work examples/adds_one.wasm 41 00ff";

const SCRIPT_TEXT: &str = "\
Prints the log, a line for each step, followed by `fault 1` if a step names something that does not exist, or
`fault 2` if it runs out of memory. For a rejected module it prints `module 0 decode 10 Counts`, and for an invalid
script `script 2 Shape` to standard error. The limit is 64 MiB.

Status: 0 done; 1 the file, the script, a step, memory or the output failed; 2 usage error;
3 a module is rejected; 4 a loop failed.

Example:
  wasmloop script examples/timer.json";

const SERVE_TEXT: &str = "\
Prints a line for each loop when all have ended, such as `loop 0 over emits 6`: whether nothing was left to do
(`over`), a callback did not return (`failed`), only asyncs are left, to which nothing sends (`waiting`), or 100000
callbacks have run (`limit`); then the values that its callbacks emitted, as signed numbers. Standard error says why
a loop is not `over`.

Status: 0 all ended, also as `limit` or `waiting`; 1 the file, memory or the output failed; 2 usage error;
3 the module is rejected; 4 a loop failed.

Example:
  wasmloop serve examples/asks.wasm --loops 2 --workers 3";

/// A required argument.
fn wanted<'a>(alloc: Global, id: &'a str, name: &'a str, help: &'a str) -> Arg<'a> {
    Arg::new(alloc, id)
        .required(true)
        .value_name(name)
        .help(help)
}

fn file_word<'a>(alloc: Global) -> Arg<'a> {
    wanted(
        alloc,
        "file",
        "FILE",
        "The module, in the binary format; /dev/stdin is standard input",
    )
}

/// An option of fuel.
fn fuel_option<'a>(alloc: Global, name: &'a str, help: &'a str) -> Arg<'a> {
    Arg::new(alloc, name)
        .long(name)
        .value_name("N")
        .default_value("1000000")
        .allow_negative_numbers(true)
        .help(help)
}

fn depth_option<'a>(alloc: Global) -> Arg<'a> {
    Arg::new(alloc, "depth")
        .long("depth")
        .value_name("N")
        .default_value("64")
        .allow_negative_numbers(true)
        .help("The call-depth limit, 1 to 128")
}

fn trace_option<'a>(alloc: Global, help: &'a str) -> Arg<'a> {
    Arg::new(alloc, TRACE)
        .long(TRACE)
        .action(ArgAction::SetTrue)
        .help(help)
}

/// A count of threads, which is required.
fn count_option<'a>(alloc: Global, name: &'a str, help: &'a str) -> Arg<'a> {
    wanted(alloc, name, "N", help)
        .long(name)
        .allow_negative_numbers(true)
}

/// A command with its help.
fn described<'a>(alloc: Global, name: &'a str, about: &'a str, text: &'a str) -> Command<'a> {
    Command::new(alloc, name).about(about).after_help(text)
}

/// A command with its help and its arguments.
fn command<'a>(
    alloc: Global,
    name: &'a str,
    about: &'a str,
    text: &'a str,
    words: Vec<Arg<'a>>,
) -> Result<Command<'a>, AllocError> {
    described(alloc, name, about, text).args(words)
}

fn check_words<'a>(alloc: Global) -> Result<Command<'a>, AllocError> {
    described(
        alloc,
        "check",
        "Check whether a module is accepted",
        CHECK_TEXT,
    )
    .arg(file_word(alloc))
}

fn arguments_word<'a>(alloc: Global) -> Arg<'a> {
    Arg::new(alloc, "arguments")
        .value_name("ARGS")
        .num_args(..)
        .action(ArgAction::Append)
        .allow_negative_numbers(true)
        .help("Its arguments, as decimal numbers without a sign")
}

fn invoke_words<'a>(alloc: Global) -> Result<Command<'a>, AllocError> {
    command(
        alloc,
        "invoke",
        "Call an exported function; every import returns -1",
        INVOKE_TEXT,
        vec![in alloc;
            file_word(alloc),
            wanted(alloc, "name", "NAME", "The name of the exported function"),
            arguments_word(alloc),
            fuel_option(alloc, "fuel", FUEL_HELP),
            depth_option(alloc),
            trace_option(alloc, USED_HELP),
        ]?,
    )
}

fn operation_word<'a>(alloc: Global) -> Arg<'a> {
    wanted(
        alloc,
        "operation",
        "OP",
        "The argument of uv_work, a whole number from 0 to 4294967295",
    )
    .allow_negative_numbers(true)
}

fn bytes_word<'a>(alloc: Global) -> Arg<'a> {
    Arg::new(alloc, "bytes")
        .value_name("HEX")
        .allow_negative_numbers(true)
        .help("The input bytes in hexadecimal, at most 65,536 of them")
}

fn input_option<'a>(alloc: Global) -> Result<Arg<'a>, AllocError> {
    Arg::new(alloc, INPUT)
        .long(INPUT)
        .value_name("FILE")
        .help("Read the input bytes from this file instead of HEX; - is standard input")
        .conflicts_with("bytes")
}

fn text_option<'a>(alloc: Global) -> Result<Arg<'a>, AllocError> {
    Arg::new(alloc, TEXT)
        .long(TEXT)
        .value_name("TEXT")
        .allow_hyphen_values(true)
        .help("Take the bytes of this text as the input instead of HEX")
        .conflicts_with("bytes")?
        .conflicts_with(INPUT)
}

fn output_option<'a>(alloc: Global) -> Arg<'a> {
    Arg::new(alloc, OUTPUT).long(OUTPUT).value_name("FILE").help(
        "Write the reply's bytes to this file; - is standard output",
    )
}

fn raw_option<'a>(alloc: Global) -> Result<Arg<'a>, AllocError> {
    Arg::new(alloc, RAW)
        .long(RAW)
        .action(ArgAction::SetTrue)
        .help("Write the reply's bytes to standard output, as --out - does")
        .conflicts_with(OUTPUT)
}

fn work_words<'a>(alloc: Global) -> Result<Command<'a>, AllocError> {
    let input = input_option(alloc)?;
    let text = text_option(alloc)?;
    let raw = raw_option(alloc)?;
    command(
        alloc,
        "work",
        "Run a module's uv_work once and print its reply",
        WORK_TEXT,
        vec![in alloc;
            file_word(alloc),
            operation_word(alloc),
            bytes_word(alloc),
            input,
            text,
            output_option(alloc),
            raw,
            fuel_option(alloc, "fuel", FUEL_HELP),
            depth_option(alloc),
            trace_option(alloc, USED_HELP),
        ]?,
    )
}

fn script_word<'a>(alloc: Global) -> Arg<'a> {
    wanted(
        alloc,
        "file",
        "FILE",
        "The script, in JSON: modules, loops, workers and steps; /dev/stdin is standard input",
    )
}

fn script_words<'a>(alloc: Global) -> Result<Command<'a>, AllocError> {
    described(
        alloc,
        "script",
        "Replay a script step by step and print the log",
        SCRIPT_TEXT,
    )
    .arg(script_word(alloc))
}

fn serve_words<'a>(alloc: Global) -> Result<Command<'a>, AllocError> {
    command(
        alloc,
        "serve",
        "Run loops of a module and workers, each in its own thread",
        SERVE_TEXT,
        vec![in alloc;
            file_word(alloc),
            count_option(alloc, "loops", "The number of loops, 1 to 8"),
            count_option(alloc, "workers", "The number of workers, 1 to 16"),
            fuel_option(
                alloc,
                "fuel",
                "The fuel limit of a callback in instructions, 0 to 2^64 - 1"
            ),
            fuel_option(
                alloc,
                "work-fuel",
                "The fuel limit of a work function in instructions, 0 to 2^64 - 1"
            ),
            depth_option(alloc),
            trace_option(
                alloc,
                "Log what loops and workers do to standard error, as they do it"
            ),
        ]?,
    )
}

/// The commands, by name.
#[derive(Clone, Copy)]
enum Verb {
    Check,
    Invoke,
    Work,
    Script,
    Serve,
}

const VERBS: [Verb; 5] = [
    Verb::Check,
    Verb::Invoke,
    Verb::Work,
    Verb::Script,
    Verb::Serve,
];

fn verb_words<'a>(alloc: Global, verb: Verb) -> Result<Command<'a>, AllocError> {
    match verb {
        Verb::Check => check_words(alloc),
        Verb::Invoke => invoke_words(alloc),
        Verb::Work => work_words(alloc),
        Verb::Script => script_words(alloc),
        Verb::Serve => serve_words(alloc),
    }
}

/// The program without its commands.
fn bare_program<'a>(alloc: Global) -> Result<Command<'a>, AllocError> {
    described(
        alloc,
        "wasmloop",
        "Run untrusted WebAssembly modules on event loops",
        PROGRAM_TEXT,
    )
    .version("0.2.0")
    .override_usage("wasmloop <COMMAND>")
    .bin_name("wasmloop")
}

/// The program with its commands.
pub(crate) fn program<'a>(alloc: Global) -> Result<Command<'a>, AllocError> {
    let mut program = bare_program(alloc)?;
    for verb in VERBS {
        program = program.subcommand(verb_words(alloc, verb)?)?;
    }
    Ok(program)
}
