//! Tests of the dialer, of served links and of the world of a hub, its clients and its links, where no contract says what they do.
#![tactic(auto)]

#[cfg(test)]
mod dialers;
#[cfg(test)]
mod fixtures;
#[cfg(test)]
mod grand_worlds;
#[cfg(test)]
mod hostile_links;
#[cfg(test)]
mod served_links;
#[cfg(test)]
mod sessions_over_links;
