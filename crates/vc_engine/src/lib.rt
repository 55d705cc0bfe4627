//! Engines that do each run on the caller's thread, by the definitions and nothing else, and never fail.
//!
//! They differ in the coder of blocks alone. Each coder gives what the definitions give, so that all engines give the
//! same bytes.
#![tactic(auto)]

mod engine;
mod runs;

pub use engine::{CodecEngine, FastEngine, PlainEngine, TransformEngine};
