//! Which bytes of a coded stream lie in no frame, after docs/FORMAT.md, "Frame places".
//!
//! A [`Coverage`] reads the stream in pieces of any size beside whoever decodes it, and keeps no more of it than an
//! [`Assembly`](vc_resync::Assembly) does.
#![tactic(auto)]

mod coverage;
pub mod laws;
mod reach;
#[cfg(test)]
mod tests;

pub use coverage::Coverage;
