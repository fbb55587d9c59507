//! The audit of kept records: that the links of each session are numbered from 1 upwards, one by one, in the order in which they were kept.
#![tactic(auto)]

pub mod audit;
mod counts;
mod lines;

pub use audit::audit_run;
