//! The device that threads share: a core under the turn lock, with a bell for those who wait.
//!
//! The caller of each slot has a handle, and each worker a seat. Each answered call, each claim that gives a job, each
//! finish and each shut is one entry of one history, which exists in contracts alone. A handle and a worker's seat
//! know a beginning of it, and the positions of their own entries there.
//!
//! No clause says that a turn comes, that a job is claimed or that a wait ends; nor which of two threads was first,
//! but for what each has seen.
#![tactic(auto)]

mod as_port;
mod as_station;
mod calls;
mod handle;
mod handle_seat;
mod held;
mod job_seat;
mod joining;
mod notes;
mod shared;
mod turns;
mod worker_seat;

pub use handle::Handle;
pub use handle_seat::HandleSeat;
pub use job_seat::JobSeat;
pub use shared::Shared;
pub use worker_seat::WorkerSeat;
