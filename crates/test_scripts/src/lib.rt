//! Tests of what a host of loops is made of: tables of handles, scripts and logs.
#![tactic(auto)]

#[cfg(test)]
mod handling;
#[cfg(test)]
mod printing;
#[cfg(test)]
mod reading;
#[cfg(test)]
mod telling;
