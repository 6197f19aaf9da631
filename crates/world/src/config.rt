// What a world is made of.

use events::settings::LoopSettings;
use imports::Linked;
use std::alloc::Global;
use std::sync::Arc;

/// One loop of a world: its module, and what its runs may spend.
#[derive(Drop)]
pub struct LoopConfig {
    pub linked: Arc<Linked, Global>,
    pub settings: LoopSettings,
}

/// What a world is made of: its loops, 1 to `MAX_LOOPS`, and how many workers it has, at most `MAX_WORKERS`.
#[derive(Drop)]
pub struct Config {
    pub loops: Vec<LoopConfig>,
    pub workers: u32,
}
