//! The plain types of the codec device: calls, replies, errnos and buffer flags.
//!
//! Names, numbers and rules follow the chapters "Memory-to-Memory Stateful Video Decoder Interface",
//! "Memory-to-Memory Stateful Video Encoder Interface" and "Input/Output" of the Linux userspace API
//! documentation, as far as docs/DEVICE.md does not say otherwise.
#![tactic(auto)]

ghost use Rattle.std.specs.Prelude.{◌≡◌};
ghost use Rattle.vc_base.specs.Errnos.{errno_name, errno_number};

use std::alloc::AllocError;
use thiserror::Error;

pub mod flags;
pub mod fourccs;
pub mod limits;

/// A queue of the device: OUTPUT carries what goes into it, CAPTURE what comes out
/// (V4L2_BUF_TYPE_VIDEO_OUTPUT and V4L2_BUF_TYPE_VIDEO_CAPTURE).
#[derive(Clone, Copy, Debug, PartialEq, Eq)]
pub enum Side {
    Out,
    Cap,
}

/// What a context does with the buffers of OUTPUT: it copies them to CAPTURE, encodes pictures, or
/// decodes a stream.
#[derive(Clone, Copy, Debug, PartialEq, Eq)]
pub enum Kind {
    Copy,
    Enc,
    Dec,
}

/// Why a call was refused: ENOENT, EAGAIN, ENOMEM, EBUSY, EINVAL, ENOTTY or EPIPE.
#[derive(Clone, Copy, Debug, PartialEq, Eq)]
pub enum Errno {
    NoEnt,
    Again,
    NoMem,
    Busy,
    Inval,
    NoTty,
    Pipe,
}

/// The four characters that name a pixel format, in the order in which they are read.
#[derive(Clone, Copy, Debug, PartialEq, Eq)]
pub struct Fourcc(pub [u8; 4]);

/// The timestamp that a buffer carries from OUTPUT to CAPTURE. The device copies it and reads no unit
/// into it (V4L2_BUF_FLAG_TIMESTAMP_COPY).
#[derive(Clone, Copy, Debug, PartialEq, Eq)]
pub struct Stamp(pub u64);

/// A growth of memory was refused.
#[derive(Clone, Copy, Debug, PartialEq, Eq, Error)]
#[error("no memory")]
pub struct NoMemory;

/// A pixel format: width and height in samples, and the size of its buffers in bytes (sizeimage of
/// struct v4l2_pix_format).
#[derive(Clone, Copy, Debug, PartialEq, Eq)]
pub struct Format {
    pub fourcc: Fourcc,
    pub width: u32,
    pub height: u32,
    pub size: u32,
}

/// A call on one slot of the device. Indices and counts are of buffers, `used` and `length` of bytes.
/// With `block` a call that finds nothing is to wait for it.
#[derive(Clone, Copy, Debug, PartialEq, Eq)]
pub enum Call {
    /// Opens the slot with a fresh context.
    Open {
        kind: Kind,
    },
    /// Closes the slot and drops its buffers.
    Close,
    /// VIDIOC_ENUM_FMT.
    EnumFmt {
        side: Side,
        index: u32,
    },
    /// VIDIOC_G_FMT.
    GetFmt {
        side: Side,
    },
    /// VIDIOC_TRY_FMT.
    TryFmt {
        side: Side,
        want: Format,
    },
    /// VIDIOC_S_FMT.
    SetFmt {
        side: Side,
        want: Format,
    },
    /// VIDIOC_REQBUFS: drops all buffers of the queue and makes `count` new ones, 32 at most.
    ReqBufs {
        side: Side,
        count: u32,
    },
    /// VIDIOC_CREATE_BUFS: adds buffers of `length` bytes, as far as the queue has room for 32.
    CreateBufs {
        side: Side,
        count: u32,
        length: u32,
    },
    /// VIDIOC_QUERYBUF.
    QueryBuf {
        side: Side,
        index: u32,
    },
    /// VIDIOC_QBUF: on CAPTURE `used` and `stamp` are ignored.
    QBuf {
        side: Side,
        index: u32,
        used: u32,
        stamp: Stamp,
    },
    /// VIDIOC_DQBUF.
    DqBuf {
        side: Side,
        block: bool,
    },
    /// VIDIOC_STREAMON.
    StreamOn {
        side: Side,
    },
    /// VIDIOC_STREAMOFF.
    StreamOff {
        side: Side,
    },
    /// VIDIOC_SUBSCRIBE_EVENT: 2 is the end of a stream, 5 a new resolution.
    Subscribe {
        event: u32,
    },
    /// VIDIOC_UNSUBSCRIBE_EVENT.
    Unsubscribe {
        event: u32,
    },
    /// VIDIOC_DQEVENT.
    DqEvent {
        block: bool,
    },
    /// VIDIOC_DECODER_CMD: 0 is START, 1 is STOP.
    DecCmd {
        cmd: u32,
    },
    /// VIDIOC_ENCODER_CMD: 0 is START, 1 is STOP.
    EncCmd {
        cmd: u32,
    },
    /// VIDIOC_G_CTRL.
    GetCtrl {
        id: u32,
    },
    /// VIDIOC_S_CTRL.
    SetCtrl {
        id: u32,
        value: u32,
    },
    /// poll(): what can be had without waiting.
    Poll,
}

/// What a call answers.
#[derive(Clone, Copy, Debug, PartialEq, Eq)]
pub enum Reply {
    /// Done, with nothing more to tell.
    Done,
    /// A format of the list, by its name.
    Desc {
        fourcc: Fourcc,
    },
    /// A format.
    Fmt {
        format: Format,
    },
    /// The number of buffers that a queue now has.
    Count {
        count: u32,
    },
    /// The index of the first buffer that was added, and how many were.
    Created {
        index: u32,
        count: u32,
    },
    /// A buffer's index, length in bytes and flags.
    Info {
        index: u32,
        length: u32,
        flags: u32,
    },
    /// A buffer that was taken from done: how many of its bytes are used, its own flags, without DONE, its
    /// sequence number on the queue and its stamp.
    Taken {
        index: u32,
        used: u32,
        flags: u32,
        seq: u64,
        stamp: Stamp,
    },
    /// An event, its number, what changed (1 with a new resolution, 0 with the end of a stream), and how many
    /// events are left. Numbers count the events that were raised in the context, from 0.
    Happened {
        event: u32,
        seq: u64,
        changes: u32,
        pending: u32,
    },
    /// The value of a control.
    Value {
        value: u32,
    },
    /// Whether a CAPTURE buffer can be taken, an OUTPUT buffer can be taken, and an event is pending.
    Ready {
        read: bool,
        write: bool,
        urgent: bool,
    },
    /// The call was refused and changed nothing.
    Refused {
        errno: Errno,
    },
    /// The call changed nothing: it is to be made again once something has happened on the slot.
    Blocked,
}

impl Errno {
    /// The name of the errno in the kernel's headers.
    pub fn name(&self) -> &'static str
        ensures { result.now ≡ errno_name self.now }
    {
        match self {
            Errno::NoEnt => "ENOENT",
            Errno::Again => "EAGAIN",
            Errno::NoMem => "ENOMEM",
            Errno::Busy => "EBUSY",
            Errno::Inval => "EINVAL",
            Errno::NoTty => "ENOTTY",
            Errno::Pipe => "EPIPE",
        }
    }

    /// The number of the errno in the kernel's headers.
    pub fn number(&self) -> u32
        ensures { result ≡ errno_number self.now }
    {
        match self {
            Errno::NoEnt => 2,
            Errno::Again => 11,
            Errno::NoMem => 12,
            Errno::Busy => 16,
            Errno::Inval => 22,
            Errno::NoTty => 25,
            Errno::Pipe => 32,
        }
    }
}

impl From<AllocError> for NoMemory {
    ghost from_gives = { λ _ result. result ≡ record {} };

    fn from(_: AllocError) -> NoMemory {
        NoMemory
    }
}
