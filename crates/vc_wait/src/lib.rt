//! Calls that wait for their answer.
//!
//! Each makes its call and, while the answer is `Blocked`, pauses the port and makes it again. So each may
//! wait, and for ever: that an answer comes is not claimed.
#![tactic(auto)]

mod payloads;
mod waits;

pub use payloads::{call_on, wait_on};
pub use waits::{close_wait, dq_wait, event_wait, off_wait};
