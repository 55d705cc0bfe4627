//! The device for C: what c/sirgumba.h declares, as thin calls of proved functions.
#![tactic(auto)]

mod answer;
pub mod device;
pub mod exports;
pub mod held;
pub mod loose;
pub mod status;
