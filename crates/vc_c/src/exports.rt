//! The calls that c/sirgumba.h declares.

ghost use Rattle.std.specs.Prelude.{◌≡◌};
ghost use Rattle.vc_c.specs.Calls.{Answers, Frees, Makes};
ghost use Rattle.vc_c.specs.Statuses.{Tells};

use crate::device::Device;
use std::alloc::Global;

/// Makes a device of so many slots, 1 to 1,024. Tells the number of a status.
#[unsafe(no_mangle)]
pub extern "C" fn sirgumba_make(alloc: Global, device: &mut Device, slots: u32) -> u32
    ensures { Tells result (Makes slots device.old.desk device.new.desk) }
{
    device.make(alloc, slots).number()
}

/// Frees a device. Tells the number of a status.
#[unsafe(no_mangle)]
pub extern "C" fn sirgumba_free(alloc: Global, device: &mut Device) -> u32
    ensures { Tells result (Frees device.old.desk device.new.desk) }
{
    device.free(alloc).number()
}

/// Answers the body of a message: does what it asks for, and writes the body of the reply to the front of the room. Tells the
/// number of a status, and the size of the reply or the room that it wants.
#[unsafe(no_mangle)]
pub extern "C" fn sirgumba_answer(
    alloc: Global,
    device: &mut Device,
    body: &[u8],
    room: &mut [u8],
    size: &mut usize,
) -> u32
    ensures { Tells result (Answers body.now (record { before = room.old; now = room.new; size = size.new }) device.old.desk device.new.desk) }
{
    device.answer(alloc, body, room, size).number()
}
