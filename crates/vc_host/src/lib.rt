//! What programs over `top` have in common: the words of the command line, a run whose output is handed on at its end, and
//! what standard error says of the status.
#![tactic(auto)]

mod line;
mod running;
mod telling;

pub use line::words;
pub use running::{handed_on, run_standard, run_whole, standard_sink};
pub use telling::report;
