//! Tests of what loops and workers share: claims, marks, a board and its jobs, and workers in threads.
#![tactic(auto)]

#[cfg(test)]
mod cancels;
#[cfg(test)]
mod claiming;
#[cfg(test)]
mod crowd;
#[cfg(test)]
mod gates;
#[cfg(test)]
mod hall;
#[cfg(test)]
mod hands;
#[cfg(test)]
mod holds;
#[cfg(test)]
mod jobs;
#[cfg(test)]
mod lines;
#[cfg(test)]
mod marking;
#[cfg(test)]
mod posting;
#[cfg(test)]
mod scenes;
#[cfg(test)]
mod seating;
#[cfg(test)]
mod showing;
#[cfg(test)]
mod turns;
