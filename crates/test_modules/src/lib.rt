//! Tests of a module's way from its bytes to its calls: of integers, texts, validation, links, operators, instances,
//! runs and orders.
#![tactic(auto)]

#[cfg(test)]
mod decoding;
#[cfg(test)]
mod instances;
#[cfg(test)]
mod integers;
#[cfg(test)]
mod linking;
#[cfg(test)]
mod modules;
#[cfg(test)]
mod operators;
#[cfg(test)]
mod orders;
#[cfg(test)]
mod rows;
#[cfg(test)]
mod runs;
#[cfg(test)]
mod validation;
