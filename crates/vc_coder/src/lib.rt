//! The coder of a block: from samples to values and back, after docs/FORMAT.md, "Transform", "Quantiser" and "Words
//! and planes".
//!
//! A block has 64 samples, or values, row by row. It is coded as its differences from 128 (an I block), or from the
//! block of the reference that it replaces (a P block). A codec takes any [`BlockCoder`], as the one over a transform
//! or one of its own.
#![tactic(auto)]

mod bases;
mod coder;
mod coding;
mod restoring;
mod showing;

pub use coder::{BlockCoder, TransformCoder};
