//! Tests of the hub that threads share, where no contract says what it does.
#![tactic(auto)]

#[cfg(test)]
mod calls;
#[cfg(test)]
mod hubs;
#[cfg(test)]
mod scripts;
