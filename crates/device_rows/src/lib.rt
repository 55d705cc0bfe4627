//! Worked rows of the device, through its calls. The crate has tests alone.
#![tactic(auto)]

#[cfg(test)]
mod tests;
