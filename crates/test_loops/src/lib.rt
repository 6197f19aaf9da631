//! Tests of event loops on whole guests: over a desk and over seats.
#![tactic(auto)]

#[cfg(test)]
mod asking;
#[cfg(test)]
mod cancelling;
#[cfg(test)]
mod edges;
#[cfg(test)]
mod guests;
#[cfg(test)]
mod listing;
#[cfg(test)]
mod replying;
#[cfg(test)]
mod seated;
#[cfg(test)]
mod sending;
#[cfg(test)]
mod telling;
#[cfg(test)]
mod timing;
#[cfg(test)]
mod turns;
