//! A run of a decoder, or of a probe: bytes are consumed up to the next result, after docs/DEVICE.md, "Runs", and
//! docs/FORMAT.md, "The sequential decoder".
//!
//! What is kept from run to run is an [`Assembly`](vc_resync::Assembly), a [`Reference`](vc_work::Reference) and the
//! geometry; a probe, which looks for the geometry, has the assembly alone. No call takes memory.
#![tactic(auto)]

mod decoded;
mod ending;
mod runs;
#[cfg(test)]
mod tests;

pub use decoded::Decoded;
pub use runs::{decode_run, probe_run};
