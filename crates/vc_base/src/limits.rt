//! The numbers of the device, each once: limits, and the numbers by which events, commands and controls are asked for.
//!
//! Clauses name them by `Rattle.vc_base.specs.Limits`. Those of the kernel's headers have the kernel's values; the
//! others are our own (docs/DEVICE.md, docs/FORMAT.md).

/// The most buffers of a queue (VIDEO_MAX_FRAME).
pub const MOST_BUFFERS: u32 = 32;

/// The bytes of a frame's header.
pub const HEADER_SIZE: usize = 44;

/// The largest body of a frame, in bytes, and the longest raw picture.
pub const MOST_BYTES: u32 = 17_694_720;

/// The longest buffer, in bytes: a coded frame of the largest picture, header included.
pub const LONGEST_BUFFER: u32 = 17_694_764;

/// The length of a copying context's buffers, in bytes, where none is asked for.
pub const USUAL_SIZE: u32 = 4_096;

/// The least length of a decoder's OUTPUT buffers, in bytes.
pub const LEAST_CODED_SIZE: u32 = 64;

/// The type of the event at the end of a drain (V4L2_EVENT_EOS).
pub const EOS_EVENT: u32 = 2;

/// The type of the event at a new resolution (V4L2_EVENT_SOURCE_CHANGE).
pub const SOURCE_CHANGE_EVENT: u32 = 5;

/// What a new resolution says has changed (V4L2_EVENT_SRC_CH_RESOLUTION).
pub const RESOLUTION_CHANGE: u32 = 1;

/// The most events that are pending in a context.
pub const MOST_EVENTS: usize = 16;

/// START (V4L2_DEC_CMD_START, V4L2_ENC_CMD_START).
pub const START_COMMAND: u32 = 0;

/// STOP (V4L2_DEC_CMD_STOP, V4L2_ENC_CMD_STOP).
pub const STOP_COMMAND: u32 = 1;

/// The control with the frames from one I frame to the next (V4L2_CID_MPEG_VIDEO_GOP_SIZE).
pub const GOP_CONTROL: u32 = 1;

/// The control with the quantiser of I frames.
pub const IQP_CONTROL: u32 = 2;

/// The control with the quantiser of P frames.
pub const PQP_CONTROL: u32 = 3;

/// The control with the fewest CAPTURE buffers of a decoder (V4L2_CID_MIN_BUFFERS_FOR_CAPTURE).
pub const LEAST_CAPTURE_CONTROL: u32 = 4;

/// The control with the fewest OUTPUT buffers of an encoder (V4L2_CID_MIN_BUFFERS_FOR_OUTPUT).
pub const LEAST_OUTPUT_CONTROL: u32 = 5;

/// The most frames from one I frame to the next.
pub const MOST_GOP: u32 = 16;

/// The coarsest quantiser.
pub const MOST_QUANTISER: u32 = 31;

/// The most slots of a device.
pub const MOST_SLOTS: u32 = 1_024;

/// The most workers of a device.
pub const MOST_WORKERS: u32 = 64;

/// The workers that a script, a message or the command line may name.
pub const SCRIPT_WORKERS: u32 = 16;

/// The longest payload of a script line, in bytes.
pub const LONGEST_PAYLOAD: usize = 17_694_720;

/// The longest script, in bytes.
pub const LONGEST_SCRIPT: usize = 1_048_576;

/// The longest body of a message of the wire, in bytes.
pub const LONGEST_MESSAGE: u32 = 17_694_781;
