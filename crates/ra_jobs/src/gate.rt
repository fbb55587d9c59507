//! What is told when a worker begins a job, and when it has ended one.
use ra_base::Key;
use ra_hub::Job;

/// Told of each job that a worker answers.
pub trait Gate {
    /// The worker begins this job.
    fn begun(&self, job: &Job);

    /// The worker has ended its job of the session of this key.
    fn ended(&self, key: &Key);
}

/// A gate that does nothing.
#[derive(Clone, Copy, Debug, PartialEq, Eq)]
pub struct OpenGate;

impl Gate for OpenGate {
    fn begun(&self, _job: &Job) {}

    fn ended(&self, _key: &Key) {}
}
