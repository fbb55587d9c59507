//! The three alarms of an endpoint: acknowledgement, timeout and keep-alive.
//!
//! There is no clock here: each call is told its moment, in milliseconds, and an alarm is a moment too.
#![tactic(auto)]

pub mod alarms;
pub mod timers;

pub use timers::{Alarm, Due, Timers};
