//! Laws over the codec's own replies on the wire: what the laws of the wire ask of a codec holds of the one that the device has.
#![tactic(auto)]

pub mod laws;
