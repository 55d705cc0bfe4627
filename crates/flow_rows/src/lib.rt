//! The order of a flow's calls, its reads and its waits, over one slot of a device whose jobs run while the flow waits.
//! The crate has tests alone.
#![tactic(auto)]

#[cfg(test)]
mod device;
#[cfg(test)]
mod log;
#[cfg(test)]
mod noted;
#[cfg(test)]
mod rows;
