//! Tests of ra_timer: alarms that are armed, due and cleared.

use ra_timer::{Alarm, Timers};

const ARMED: [(Alarm, u64); 3] = [
    (Alarm::Acknowledge, 20),
    (Alarm::Timeout, 21),
    (Alarm::KeepAlive, 5),
];

/// Timers that are armed as above, and whether each said so.
fn armed() -> (Timers, bool) {
    let mut timers = Timers::new();
    let mut all = timers.next_due().is_none();
    for (which, at) in ARMED {
        timers.arm(which, at);
        all = all && timers.armed(which) == Some(at);
    }
    (timers, all)
}

/// Three alarms, of which two are due at 20: these are disarmed, and the third stays.
#[test]
fn due(rt: HostRuntime) {
    let (mut timers, all) = armed();
    assert!(rt; all);
    assert_eq!(rt; timers.next_due(), Some(5));
    let due = timers.due(20);
    assert!(rt; due.acknowledge && !due.timeout && due.keep_alive);
    assert_eq!(rt; timers.armed(Alarm::Acknowledge), None);
    assert_eq!(rt; timers.next_due(), Some(21));
    timers.clear();
    assert_eq!(rt; timers.armed(Alarm::Timeout), None);
}
