//! The queue of jobs for threads: what the sessions' peers ask for goes in at one seat and is taken at another.
//!
//! What a job asks for, and who answers it, is not known here.
#![tactic(auto)]

mod gate;
mod job_seat;
mod protocol;
mod queue;
mod sink;
mod stop;

pub use gate::{Gate, OpenGate};
pub use job_seat::JobSeat;
pub use protocol::{QueueName, SeatLog};
pub use queue::{Full, JobQueue, JobsFault, Opened, Ring};
pub use sink::QueueJobs;
pub use stop::Stop;
