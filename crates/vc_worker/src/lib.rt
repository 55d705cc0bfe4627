//! What a worker does: it claims jobs, runs them on its engine and finishes them, by itself or while a
//! caller waits.
#![tactic(auto)]

mod helping;
mod worker;

pub use helping::{Help, Helping};
pub use worker::{Served, serve};
