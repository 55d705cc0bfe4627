//! Laws over the coded stream of one decoder: what the events of its slot say of the bytes that were queued on OUTPUT, and of
//! what was handed out on CAPTURE for them.
#![tactic(auto)]

pub mod laws;
