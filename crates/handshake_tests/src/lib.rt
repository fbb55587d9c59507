//! Tests of heads, handshakes, openings, records and the registry, where no contract says what they do.
#![tactic(auto)]

#[cfg(test)]
mod heads;
#[cfg(test)]
mod items;
#[cfg(test)]
mod openings;
#[cfg(test)]
mod records;
#[cfg(test)]
mod registries;
#[cfg(test)]
mod shake_refusals;
#[cfg(test)]
mod signatures;
#[cfg(test)]
mod whole_handshakes;
