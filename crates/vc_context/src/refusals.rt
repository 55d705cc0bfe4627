//! What calls that take memory answer before it is sought, and whether queues have work.

ghost use Rattle.std.specs.Prelude.{◌≡◌};
ghost use Rattle.std.specs.Option.{option_map};
ghost use Rattle.vc_base.specs.Buffers.{reqbufs_refusal, create_refusal};
ghost use Rattle.vc_base.specs.declared.Reply.TheVariants.{Refused};
ghost use Rattle.vc_queue.specs.Growing.{cannot_grow};
ghost use Rattle.vc_context.specs.Contexts.{has_work};

use crate::replies::nothing_such;
use vc_base::limits::{LONGEST_BUFFER, MOST_BUFFERS};
use vc_base::{Errno, Reply};
use vc_queue::queue::Queue;

/// What ReqBufs answers before memory is sought.
pub fn reqbufs_refusal(queue: &Queue) -> Option<Reply>
    ensures { result ≡ option_map Refused (reqbufs_refusal queue.now) }
{
    if queue.is_streaming() {
        return Some(Reply::Refused { errno: Errno::Busy });
    }
    None
}

/// Whether a queue of so many buffers cannot get `count` more of that length.
fn cannot_grow(buffers: u32, count: u32, length: u32) -> bool
    ensures { result ≡ cannot_grow buffers count length }
{
    length < 1 || LONGEST_BUFFER < length || (0 < count && buffers == MOST_BUFFERS)
}

/// What CreateBufs answers before memory is sought.
pub fn create_refusal(queue: &Queue, count: u32, length: u32) -> Option<Reply>
    ensures { result ≡ option_map Refused (create_refusal queue.now count length) }
{
    if cannot_grow(queue.buffers(), count, length) {
        return Some(nothing_such());
    }
    None
}

/// Whether a queue streams and has a ready buffer.
pub fn has_work(queue: &Queue) -> bool
    ensures { result ≡ has_work queue.now }
{
    queue.is_streaming() && queue.front_ordinal().is_some()
}
