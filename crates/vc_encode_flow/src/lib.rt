//! Raw pictures through one encoder of the device, over any port.
//!
//! `encode_on` opens the port's slot as an encoder, feeds it the pictures of a source, and writes the frames that
//! the slot hands out to a sink. `share_on` feeds it pictures of the generator, and counts and folds the frames' bytes.
#![tactic(auto)]

mod collecting;
mod feeding;
mod flowing;
mod opening;
mod sharing;
mod tallying;

pub use flowing::encode_on;
pub use sharing::share_on;
pub use tallying::Tally;
pub use vc_flow::FlowEnd;
