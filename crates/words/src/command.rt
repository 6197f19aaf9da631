// The commands of the program.

ghost use Rattle.std.specs.Prelude.{◌≤◌};
ghost use Rattle.limits.specs.declared.TheConstants.{MAX_BYTES, MAX_DEPTH, MAX_LOOPS, MAX_WORKERS};
ghost use Rattle.words.specs.Inputs.{spelled_count};

use events::settings::LoopSettings;

/// A call of an exported function, with its arguments as words.
#[derive(Drop)]
pub struct Invocation {
    /// The file of the module.
    pub file: String,
    /// The name of the exported function.
    pub name: String,
    /// The arguments, as unsigned decimal numbers.
    pub arguments: Vec<String>,
    /// The units of fuel that the start function and the function may use together.
    pub fuel: u64,
    /// The call-depth limit, 1 to `MAX_DEPTH`.
    pub depth: u32,
    /// Whether the fuel used is reported.
    pub is_traced: bool,
    pub ghost depth_in_range: { (1 ≤ depth) × (depth ≤ MAX_DEPTH) },
}

/// Where the input of a job comes from.
#[derive(Drop)]
pub enum WorkInput {
    /// These, at most `MAX_BYTES` of them.
    Bytes(Vec<u8>),
    /// The file of this name.
    File(String),
}

/// Where the reply of a job goes.
#[derive(Drop)]
pub enum WorkOutput {
    /// Into the printed line, in hexadecimal.
    Line,
    /// Into the file of this name, which is created or replaced.
    File(String),
    /// To standard output, and the printed line to standard error.
    Standard,
}

/// A job for a module.
#[derive(Drop)]
pub struct WorkRequest {
    /// The file of the module.
    pub file: String,
    /// The argument of `uv_work`.
    pub operation: u32,
    /// Its input.
    pub input: WorkInput,
    /// Where its reply goes.
    pub output: WorkOutput,
    /// The units of fuel that the start function and `uv_work` may use together.
    pub fuel: u64,
    /// The call-depth limit, 1 to `MAX_DEPTH`.
    pub depth: u32,
    /// Whether the fuel used is reported.
    pub is_traced: bool,
    pub ghost depth_in_range: { (1 ≤ depth) × (depth ≤ MAX_DEPTH) },
    pub ghost short: { spelled_count input ≤ MAX_BYTES },
}

/// Loops of a module, and workers.
#[derive(Drop)]
pub struct ServeCommand {
    /// The file of the module.
    pub file: String,
    /// The number of loops, 1 to `MAX_LOOPS`.
    pub loops: u32,
    /// The number of workers, 1 to `MAX_WORKERS`.
    pub workers: u32,
    /// The limits of each loop.
    pub settings: LoopSettings,
    /// Whether loops and workers log what they do, as they do it.
    pub is_traced: bool,
    pub ghost few_loops: { (1 ≤ loops) × (loops ≤ MAX_LOOPS) },
    pub ghost few_workers: { (1 ≤ workers) × (workers ≤ MAX_WORKERS) },
    pub ghost depth_in_range: { (1 ≤ settings.depth) × (settings.depth ≤ MAX_DEPTH) },
}

/// A command with its arguments.
#[derive(Drop)]
pub enum Command {
    /// Checks whether the module in the file is accepted.
    Check { file: String },
    /// Calls an exported function of a module.
    Invoke(Invocation),
    /// Runs a module's `uv_work` once.
    Work(WorkRequest),
    /// Replays a script.
    Script { file: String },
    /// Runs loops of a module and workers in threads.
    Serve(ServeCommand),
}
