//! Jobs that tests tell apart.
use ra_base::{Key, Kind, Message, Token};
use ra_hub::Job;
use ra_session::Work;
use std::alloc::Global;

/// A job of an extension host's session whose body is this byte.
pub fn job(alloc: Global, byte: u8) -> Option<Job> {
    let Ok(token) = Token::from_text("t") else {
        return None;
    };
    let Ok(body) = Message::copy(alloc, &[byte]) else {
        return None;
    };
    let kind = Kind::ExtensionHost;
    let key = Key { kind, token };
    let work = Work::Host { body };
    Some(Job::new(key, work))
}

/// The byte of such a job, or 0.
pub fn byte_of(job: &Job) -> u8 {
    match job.work() {
        Work::Host { body } => body.as_slice().first().copied().unwrap_or(0),
        Work::Call { .. } => 0,
    }
}
