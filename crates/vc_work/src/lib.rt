//! What a job works on, and what an engine is.
//!
//! A job takes buffers out of its context and is run by an engine, under no lock. What a run comes to is
//! defined from its work alone: docs/DEVICE.md has the table of runs.
#![tactic(auto)]

mod engine;
pub mod laws;
mod reference;
mod work;

pub use engine::{Engine, EngineFault, Outcome};
pub use reference::Reference;
pub use vc_resync::Assembly;
pub use work::{Piece, Rates, Sort, Work};
