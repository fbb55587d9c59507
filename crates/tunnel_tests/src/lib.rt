//! Tests of what tunnels do, where no contract says it.
#![tactic(auto)]

#[cfg(test)]
mod joins;
