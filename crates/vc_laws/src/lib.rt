//! Laws over the runs of one slot: segments, drains and changes of the resolution.
#![tactic(auto)]

pub mod laws;
pub mod rows;
