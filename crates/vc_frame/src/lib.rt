//! Frames: a picture as an encoder writes it, and back, after docs/FORMAT.md, "The sequential encoder" and "The
//! sequential decoder".
//!
//! Both ways a [`Reference`](vc_work::Reference) goes along, which has the picture that P frames go on from. No call
//! takes memory.
#![tactic(auto)]

mod decoding;
mod encoding;
pub mod laws;
mod order;
mod planes;

pub use decoding::{decode_frame, is_same_geometry};
pub use encoding::encode_frame;

#[cfg(test)]
mod tests;
