//! Tests of what the crates of the outside, of one endpoint, of two and of their scripts do, where no contract says it.
#![tactic(auto)]

#[cfg(test)]
mod alarms;
#[cfg(test)]
mod bodies;
mod call_lines;
#[cfg(test)]
mod edges;
#[cfg(test)]
mod endpoints;
#[cfg(test)]
mod frames;
#[cfg(test)]
mod grand_scripts;
#[cfg(test)]
mod memory_links;
#[cfg(test)]
mod ports;
#[cfg(test)]
mod queues;
#[cfg(test)]
mod scripts;
#[cfg(test)]
mod words;
#[cfg(test)]
mod worlds;
