//! The engines of the program: lane, plain and fast engines in turn, or engines of one kind.
#![tactic(auto)]

mod any;
mod program;
#[cfg(test)]
mod tests;

pub use any::{AnyEngine, EngineKind};
pub use program::{ProgramEngine, engines_of_kind, kind_at, program_engines};
