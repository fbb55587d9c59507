//! Tests of what threads share, where no contract says what it does.
#![tactic(auto)]

#[cfg(test)]
mod jobs;
#[cfg(test)]
mod queues;
#[cfg(test)]
mod stops;
#[cfg(test)]
mod two_threads;
