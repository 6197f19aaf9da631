//! A box as its pointer, or nothing, for a place that C owns.
//!
//! Each function has a raw pointer, and its proof is a walk by hand, in proofs/.
#![tactic(auto)]

mod loose;

pub use loose::Loose;
