//! What a run of a valid module means (WebAssembly Core 1.0, chapter 4), and what holds of every run: no machine, no
//! program counter, no stack of slots.
//!
//! Begin with `specs/Configuration.antt` (where a run stands), `Step.antt` (its next step), `Run.antt`, `Running.antt`, `Hosting.antt` and
//! `Invoking.antt` (whole runs, and what the host answers in them). `specs/Stopping.antt` says where a run stopped. `laws` has what
//! holds of all this: a run's contexts are bounded and sound, one start has one ending, and the side tables say where its calls
//! stand. `specs/Inner/` serves the proofs of these laws, and is no part of the meaning.
//!
//! There is no code here but the laws' functions, which do nothing. The crate `interp` has code whose runs these are.
#![tactic(auto)]

pub mod laws;
