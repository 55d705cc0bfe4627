//! The core as it lies under the lock.

use vc_core::Core;
use vc_turn::Stands;

/// How many slots and workers a device has.
#[derive(Clone, Copy)]
pub(crate) struct Sizes {
    pub(crate) slots: u32,
    pub(crate) workers: u32,
}

/// The core of a device of that size.
#[derive(Drop)]
pub(crate) struct Held {
    pub(crate) core: Core,
    pub(crate) sizes: Sizes,
}

impl Stands for Held {
    ghost use Rattle.vc_shared.specs.Histories.{StandsForLog};

    ghost stands = { λ h log. StandsForLog h.sizes.slots h.sizes.workers h.core log };
}
