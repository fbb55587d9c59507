//! What the calls of an endpoint change of its alarms and of the moments that it remembers.
ghost use Rattle.std.specs.Prelude.{cond, ◌≡◌, ◌<◌, ◌^◌, ◌&&◌, nat_lt};
ghost use Rattle.ra_model.specs.Calls.{fed_after};
ghost use Rattle.ra_model.specs.Timing.{silent_for, watched, message_heard, asked_lately, link_begun, link_up, alarms_cleared, new_timing, is_due, fires, timeout_served, acks, acknowledge_served, keep_alive_served};

use ra_model::Timing;

pub fn new_timing(now: u64) -> Timing
    ensures { result ≡ new_timing now }
{
    Timing {
        acknowledge: None,
        timeout: None,
        keep_alive: None,
        asked: None,
        latest: now,
        fed: now,
        changed: now,
        heard: now,
    }
}

/// How long the peer has been silent.
fn silent_for(oldest: Option<u64>, now: u64, timing: Timing) -> u64
    ensures { result ≡ silent_for oldest now timing }
{
    let written = match oldest {
        Some(at) => at,
        None => 0,
    };
    let since_fed = now.saturating_sub(timing.fed);
    let since_changed = now.saturating_sub(timing.changed);
    now.saturating_sub(written)
        .min(since_fed.min(since_changed))
}

/// The timeout is armed where a message waits.
#[tactic(auto, unfolding(ra_model::specs::Timing::watched))]
pub fn watched(waits: bool, oldest: Option<u64>, now: u64, mut timing: Timing) -> Timing
    requires { now < 2 ^ 53 }
    ensures { result ≡ watched waits oldest now timing }
{
    if !waits {
        return timing;
    }
    if let None = timing.timeout {
        let silent = silent_for(oldest, now, timing);
        timing.timeout = Some(now + 20000u64.saturating_sub(silent).max(500));
    }
    timing
}

/// A message is handed up.
#[tactic(auto, unfolding(ra_model::specs::Timing::message_heard))]
pub fn message_heard(now: u64, mut timing: Timing) -> Timing
    requires { now < 2 ^ 53 }
    ensures { result ≡ message_heard now timing }
{
    timing.heard = now;
    if let None = timing.acknowledge {
        timing.acknowledge = Some(now + 2005);
    }
    timing
}

/// A replay was asked for at most 10 s before.
pub fn asked_lately(now: u64, timing: Timing) -> bool
    ensures { result ≡ asked_lately now timing }
{
    match timing.asked {
        Some(at) => now.saturating_sub(at) <= 10000,
        None => false,
    }
}

/// A link begins.
#[tactic(auto, unfolding(ra_model::specs::Timing::link_begun))]
pub fn link_begun(now: u64, timing: Timing) -> Timing
    ensures { result ≡ link_begun now timing }
{
    Timing {
        acknowledge: None,
        timeout: None,
        keep_alive: None,
        asked: None,
        latest: now,
        fed: now,
        changed: now,
        heard: timing.heard,
    }
}

/// The link is up.
#[tactic(auto, unfolding(ra_model::specs::Timing::link_up))]
pub fn link_up(keeps_alive: bool, now: u64, mut timing: Timing) -> Timing
    requires { now < 2 ^ 53 }
    ensures { result ≡ link_up keeps_alive now timing }
{
    if keeps_alive {
        timing.keep_alive = Some(now + 5000);
    }
    timing
}

/// The link is lost.
#[tactic(auto, unfolding(ra_model::specs::Timing::alarms_cleared))]
pub fn alarms_cleared(mut timing: Timing) -> Timing
    ensures { result ≡ alarms_cleared timing }
{
    timing.acknowledge = None;
    timing.timeout = None;
    timing.keep_alive = None;
    timing
}

/// A piece comes.
pub fn fed(piece: &[u8], now: u64, mut timing: Timing) -> Timing
    ensures { result ≡ record timing { latest = now; fed = fed_after piece.now timing.fed now } }
{
    timing.latest = now;
    if !piece.is_empty() {
        timing.fed = now;
    }
    timing
}

/// The alarm is armed for now or for a moment before.
pub fn is_due(alarm: Option<u64>, now: u64) -> bool
    ensures { result ≡ is_due alarm now }
{
    match alarm {
        Some(at) => at <= now,
        None => false,
    }
}

/// The timeout is due, and the peer has been silent for 20 s.
pub fn fires(waits: bool, oldest: Option<u64>, now: u64, timing: Timing) -> bool
    ensures { result ≡ fires waits oldest now timing }
{
    is_due(timing.timeout, now) && waits && silent_for(oldest, now, timing) >= 20000
}

/// A timeout that is due fires, or is armed again.
#[tactic(auto, unfolding(ra_model::specs::Timing::timeout_served, ra_model::specs::Timing::watched))]
pub fn timeout_served(waits: bool, oldest: Option<u64>, now: u64, mut timing: Timing) -> Timing
    requires { now < 2 ^ 53 }
    ensures timing { result ≡ timeout_served waits oldest now timing }
    ensures moments { (result.latest ≡ timing.latest) × (result.heard ≡ timing.heard) }
{
    if fires(waits, oldest, now, timing) {
        timing.timeout = None;
        timing.changed = now;
        return timing;
    }
    if is_due(timing.timeout, now) {
        timing.timeout = None;
        return watched(waits, oldest, now, timing);
    }
    timing
}

/// An acknowledgement is due, is owed, and nothing was handed up for 2 s.
pub fn acks(owes: bool, now: u64, timing: Timing) -> bool
    ensures { result ≡ acks owes now timing }
{
    is_due(timing.acknowledge, now) && owes && now.saturating_sub(timing.heard) >= 2000
}

/// An acknowledgement that is due is over, or is armed again.
#[tactic(auto, unfolding(ra_model::specs::Timing::acknowledge_served))]
pub fn acknowledge_served(owes: bool, now: u64, mut timing: Timing) -> Timing
    requires { timing.heard < 2 ^ 53 }
    ensures timing { result ≡ acknowledge_served owes now timing }
    ensures moments { (result.latest ≡ timing.latest) × (result.heard ≡ timing.heard) }
{
    if !is_due(timing.acknowledge, now) {
        return timing;
    }
    if owes && !acks(owes, now, timing) {
        timing.acknowledge = Some(timing.heard + 2005);
        return timing;
    }
    timing.acknowledge = None;
    timing
}

/// A keep-alive that is due is armed again.
#[tactic(auto, unfolding(ra_model::specs::Timing::keep_alive_served))]
pub fn keep_alive_served(now: u64, mut timing: Timing) -> Timing
    requires { now < 2 ^ 53 }
    ensures timing { result ≡ keep_alive_served now timing }
    ensures moments { (result.latest ≡ timing.latest) × (result.heard ≡ timing.heard) }
{
    if is_due(timing.keep_alive, now) {
        timing.keep_alive = Some(now + 5000);
    }
    timing
}

/// A message is handed up where the link is up.
#[tactic(auto, unfolding(ra_model::specs::Timing::message_heard))]
pub fn heard_where(is_up: bool, now: u64, timing: Timing) -> Timing
    requires now { now < 2 ^ 53 }
    requires heard { timing.heard < 2 ^ 53 }
    ensures timing { result ≡ cond is_up (message_heard now timing) timing }
    ensures moments { (result.latest ≡ timing.latest) × (result.heard < 2 ^ 53) }
{
    if is_up {
        message_heard(now, timing)
    } else {
        timing
    }
}
