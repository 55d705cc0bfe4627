//! Engines round another engine: one that fails at chosen runs, and one that waits at a gate.
#![tactic(auto)]

mod failing;
mod gated;

pub use failing::FailingEngine;
pub use gated::{Gate, GatedEngine};

#[cfg(test)]
mod tests;
