//! Tests of `serve`: loops and workers in threads, and what a watcher gets.
#![tactic(auto)]

#[cfg(test)]
mod apart;
#[cfg(test)]
mod meeting;
#[cfg(test)]
mod resting;
#[cfg(test)]
mod sending;
#[cfg(test)]
mod serving;
#[cfg(test)]
mod showing;
#[cfg(test)]
mod telling;
