//! The audit of a report: whether it is what a device may print for a script. docs/FORMAT.md has scripts, reports and the
//! first wrong line.
#![tactic(auto)]

mod auditing;
mod parts;
mod pieces;
mod replay;
mod verdict;

pub use auditing::{audit, check_lines};
pub use parts::{Parts, cut};
pub use verdict::{AuditFault, Verdict};
