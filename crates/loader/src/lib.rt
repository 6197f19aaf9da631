//! From bytes to a guest.
//!
//! `load` decodes, validates and links: Ok gives a `Linked` of these very bytes, and a `Refusal` names the stage, the number and
//! the word of what refused them, of which it says so by contract. `decoded` and `validated` do the first of these steps. Where in
//! the bytes a refusal is and why, `sentences` says.
#![tactic(auto)]

mod loading;
mod refusal;

pub use loading::{decoded, load, validated};
pub use refusal::Refusal;
