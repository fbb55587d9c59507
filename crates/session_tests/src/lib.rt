//! Tests of values, packets, channels, sessions, the hub and the tools, where no contract says what they do.
#![tactic(auto)]

#[cfg(test)]
mod channel_clients;
#[cfg(test)]
mod channel_servers;
#[cfg(test)]
mod fixtures;
#[cfg(test)]
mod hubs;
#[cfg(test)]
mod packets;
#[cfg(test)]
mod session_acts;
#[cfg(test)]
mod sessions;
#[cfg(test)]
mod tools;
#[cfg(test)]
mod values;
