//! The commands of the program: `script` reads a script whole, carries out its lines on a device, and prints
//! what they answer; `encode` codes raw pictures and `decode` decodes coded streams, both by workers; `make` writes
//! pictures of the generator, `share` codes them in many contexts at once, `audit` judges a report of a script, and
//! `wire` serves the device over a stream of messages.
//! docs/FORMAT.md has the grammar and the texts.
#![tactic(auto)]

mod audit;
mod commands;
mod decode;
mod encode;
mod flows;
mod input;
pub mod laws;
pub mod rows;
mod script;
mod share;
mod status;
mod wire;

pub use commands::{script_run, top};
pub use status::Status;
