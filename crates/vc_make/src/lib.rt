//! Pictures for trials: writes pictures of the generator one after another, in a raw format.
#![tactic(auto)]

mod pictures;
#[cfg(test)]
mod tests;

pub use pictures::{MakeStop, write_pictures};
