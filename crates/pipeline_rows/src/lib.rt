//! Worked rows of the commands, from raw pictures to frames and back, beside what the codec alone makes of the same
//! pictures. The crate has tests alone.
#![tactic(auto)]

#[cfg(test)]
mod alone;
#[cfg(test)]
mod commands;
#[cfg(test)]
mod contexts;
#[cfg(test)]
mod rows;
#[cfg(test)]
mod stream;
