//! What every kind of context of the device has in common.
//!
//! Contexts that copy, encode and decode are crates of their own kind; the device knows them by their calls,
//! claims and finishes alone. Here stand the statements that these have in common, the replies that are made
//! in the same way, and what a job takes out of a context and brings back.
#![tactic(auto)]

pub mod jobs;
pub mod laws;
pub mod refusals;
pub mod replies;
#[cfg(test)]
mod tests;
