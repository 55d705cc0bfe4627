//! A coded stream through a decoder and an encoder of one device.
#![tactic(auto)]

mod beside;
mod collecting;
pub mod laws;
mod opening;
mod segment;

pub use beside::Beside;
pub use segment::Segment;
