//! The sentence that says where and why a text is not a script: `script_fault`. No clause covers the wording; tests compare it.
#![tactic(auto)]

mod fault;
mod flaw;
mod nesting;
mod walk;

pub use fault::script_fault;
