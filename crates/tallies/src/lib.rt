//! How the requests of a loop and the sends to its asyncs are counted. Definitions alone, which stand here for all that count so,
//! and what follows from them; and what proofs of several crates need of plain lists.
#![tactic(auto)]
