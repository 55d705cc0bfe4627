//! The codec alone, from a source to a sink: pictures are coded, and frames decoded, one after another in one buffer that
//! is used again, without a device, buffers of a client or workers. What commands cost can be measured beside it.
//!
//! All pictures are `YU12` of 352 by 288, as those of `make` and `encode` without options.
#![tactic(auto)]

mod decoding;
mod encoding;
mod pictures;
mod piece;
mod reading;
#[cfg(test)]
mod tests;

pub use decoding::decode_alone;
pub use encoding::encode_alone;
pub use pictures::AloneStop;
