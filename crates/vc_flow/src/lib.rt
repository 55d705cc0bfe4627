//! What the flows have in common: how they end, the calls whose refusal stops them, and the buffers that they fill and write.
//!
//! A flow makes calls on the slot of one port until its input is through, or until something stops it.
#![tactic(auto)]

mod buffers;
mod calls;
mod closing;
mod ends;

pub use buffers::{is_failed, queue_source, write_taken};
pub use calls::{call_done, call_granted, request_buffers, set_format};
pub use closing::close_slot;
pub use ends::{FlowEnd, MOST_INPUT, Stop};
