//! A coded stream through one decoder of the device, over any port.
//!
//! The flow opens the port's slot as a decoder, feeds it the stream of a source, and writes the pictures that
//! the slot hands out to a sink.
#![tactic(auto)]

mod draining;
mod feeding;
mod flowing;
mod opening;
mod probing;
mod reading;
mod rounds;
mod setting;
mod taking;

pub use flowing::decode_on;
pub use vc_flow::FlowEnd;
