//! The device: slots with contexts, the list of the slots that wait for a worker, and the jobs.
//!
//! Each call, claim, finish and shut is one step of the device, as docs/DEVICE.md defines it. A job takes
//! the buffers of its run with it and is run outside the device, on no lock.
//!
//! There are contexts that copy, that encode and that decode.
#![tactic(auto)]

mod device;
mod job;
pub mod laws;
mod slot;

pub use device::Core;
pub use job::{Finished, Job};
pub use vc_work::{Engine, EngineFault, Rates};
