//! The wire: messages that come as bytes, what each asks of a device, and the replies.
#![tactic(auto)]

mod answer;
mod ends;
mod framer;
mod numbers;
mod passing;
pub mod replies;
pub mod requests;
mod serve;
#[cfg(test)]
mod tests;

pub use answer::answer_body;
pub use ends::WireEnd;
pub use framer::{Framed, Framer};
pub use serve::wire_run;
