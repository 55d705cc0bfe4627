//! Who calls the device, and who runs its jobs.
//!
//! A port is one caller: it makes the calls of one slot. A station is one worker: it claims jobs and
//! finishes them. The shared device has both; what waits, works or encodes is written over any port and
//! any station, and is proved from their contracts alone.
#![tactic(auto)]

pub mod laws;
mod port;
mod station;

pub use port::{PayloadPort, Port};
pub use station::{Claimed, Station};
