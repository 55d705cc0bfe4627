//! Callers beside workers in threads: the device is made, each worker runs jobs in a thread of a scope, and the calls of
//! a flow are made on a slot of its own: of one flow by the caller itself, of several each in a thread of its own. Behind
//! the last flow the device is shut, all threads are joined, and the engines come back.
//!
//! No clause says that two threads ran at once, that a worker took a job, or that a wait ends.
#![tactic(auto)]

mod beside;
mod caller;
mod calling;
mod crew;
mod flow;
mod site;
mod team;
mod together;
mod worker;

pub use beside::{Ended, run_beside};
pub use flow::Flow;
pub use together::run_together;
