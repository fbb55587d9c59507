//! Alarms that are armed and become due.
ghost use Rattle.std.specs.Prelude.{◌≡◌};
ghost use Rattle.ra_model.specs.Timing.{is_due};
ghost use Rattle.ra_timer.specs.Armed.{none_armed, served, alarm_of, with_alarm, all_served, earlier, IsEarliest};

use crate::alarms::is_due;
use std::marker::Model;

/// Which alarm.
#[derive(Clone, Copy, Debug, PartialEq, Eq)]
pub enum Alarm {
    /// What was received is to be acknowledged.
    Acknowledge,
    /// The peer may have been silent for too long.
    Timeout,
    /// The peer is to be told that this side is there.
    KeepAlive,
}

/// Which alarms are due.
#[derive(Clone, Copy, Debug, PartialEq, Eq)]
pub struct Due {
    pub acknowledge: bool,
    pub timeout: bool,
    pub keep_alive: bool,
}

/// Three alarms, each armed for a moment or not. No call takes memory.
#[derive(Debug, Drop)]
pub struct Timers {
    acknowledge: Option<u64>,
    timeout: Option<u64>,
    keep_alive: Option<u64>,
}

impl Model for Timers {
    ghost use Rattle.ra_timer.specs.Armed.{Armed};

    ghost Value = { Armed };

    ghost view = { λ t. record { acknowledge = t.acknowledge; timeout = t.timeout; keep_alive = t.keep_alive } };
}

/// The earlier of two moments, where there are any.
fn earlier(first: Option<u64>, second: Option<u64>) -> Option<u64>
    ensures { result ≡ earlier first second }
{
    match (first, second) {
        (Some(a), Some(b)) => Some(a.min(b)),
        (Some(a), None) => Some(a),
        (None, b) => b,
    }
}

/// An alarm that is due is no longer armed.
fn serve(alarm: &mut Option<u64>, now: u64) -> bool
    ensures due { result ≡ is_due alarm.old now }
    ensures after { alarm.new ≡ served now alarm.old }
{
    let due = is_due(*alarm, now);
    if due {
        *alarm = None;
    }
    due
}

impl Timers {
    /// No alarm is armed.
    pub fn new() -> Timers
        ensures { result ≡ none_armed }
    {
        Timers {
            acknowledge: None,
            timeout: None,
            keep_alive: None,
        }
    }

    /// Arms an alarm for a moment, whatever it was armed for.
    pub fn arm(&mut self, which: Alarm, at: u64)
        ensures { self.new ≡ with_alarm which at self.old }
    {
        match which {
            Alarm::Acknowledge => self.acknowledge = Some(at),
            Alarm::Timeout => self.timeout = Some(at),
            Alarm::KeepAlive => self.keep_alive = Some(at),
        }
    }

    /// Disarms all alarms.
    pub fn clear(&mut self)
        ensures { self.new ≡ none_armed }
    {
        *self = Timers::new();
    }

    /// The moment for which an alarm is armed.
    pub fn armed(&self, which: Alarm) -> Option<u64>
        ensures { result ≡ alarm_of which self.now }
    {
        match which {
            Alarm::Acknowledge => self.acknowledge,
            Alarm::Timeout => self.timeout,
            Alarm::KeepAlive => self.keep_alive,
        }
    }

    /// The alarms that are armed for now or for a moment before. These are disarmed.
    pub fn due(&mut self, now: u64) -> Due
        ensures acknowledge { result.acknowledge ≡ is_due self.old.acknowledge now }
        ensures timeout { result.timeout ≡ is_due self.old.timeout now }
        ensures keep_alive { result.keep_alive ≡ is_due self.old.keep_alive now }
        ensures after { self.new ≡ all_served now self.old }
    {
        let acknowledge = serve(&mut self.acknowledge, now);
        let timeout = serve(&mut self.timeout, now);
        let keep_alive = serve(&mut self.keep_alive, now);
        Due {
            acknowledge,
            timeout,
            keep_alive,
        }
    }

    /// The earliest moment for which an alarm is armed.
    pub fn next_due(&self) -> Option<u64>
        ensures { IsEarliest self.now result }
    {
        earlier(self.acknowledge, earlier(self.timeout, self.keep_alive))
    }
}
