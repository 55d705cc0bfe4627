//! Finding frames in bytes that come in pieces, after docs/FORMAT.md, "Frame places".
//!
//! An [`Assembly`] keeps the bytes that later ones may make into a frame, and [`feed`] takes the next piece. Over any
//! cutting each legal header and each frame is told once, in order, as soon as it is known.
#![tactic(auto)]

mod assembly;
mod collected;
mod feeding;
pub mod laws;
mod seeking;
mod stamps;
mod told;

pub use assembly::Assembly;
pub use feeding::{Found, feed};

#[cfg(test)]
mod tests;
