//! Tests of the commands: scripts and inputs with their whole output.
#![tactic(auto)]

#[cfg(test)]
mod grand_runs;
#[cfg(test)]
mod links;
#[cfg(test)]
mod scripts;
