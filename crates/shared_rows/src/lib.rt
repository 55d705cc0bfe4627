//! Worked rows of the shared device, through its handles and its workers' seats. The crate has tests alone.
#![tactic(auto)]

#[cfg(test)]
mod calls;
#[cfg(test)]
mod gated;
#[cfg(test)]
mod helping;
#[cfg(test)]
mod rows;
#[cfg(test)]
mod seats;
