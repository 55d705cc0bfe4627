//! The command line of the program: a command, and then pairs of a name and a value in any order.
//! docs/FORMAT.md, "Words", has the table of commands and options.
#![tactic(auto)]

mod command;
mod formats;
pub mod laws;
mod options;
mod read;
#[cfg(test)]
mod tests;

pub use command::{
    AuditOptions, Command, DecodeOptions, EncodeOptions, MakeOptions, RateOptions, ScriptOptions,
    ShareOptions, TranscodeOptions, WireOptions,
};
pub use read::read_words;
