//! The desk of a device: the device with what its users hold and what its workers are doing, and what the lines of a
//! script do on it and print. docs/DEVICE.md has the calls, and docs/FORMAT.md the lines and the texts.
#![tactic(auto)]

mod carry;
mod desk;
mod ends;

pub use carry::{Printed, carry_claim, carry_out};
pub use desk::Desk;
pub use ends::{ClaimEnd, FinishEnd};
