//! Tests of kept records: their audit, hubs that start again over a table, a keeper that fails, and disks that stop at some call.
#![tactic(auto)]

#[cfg(test)]
mod audits;
#[cfg(test)]
mod failures;
#[cfg(test)]
mod fixtures;
#[cfg(test)]
mod restarts;
#[cfg(test)]
mod stops;
