//! The names of the formats: four raw ones, the coded one, and plain bytes. The raw ones are the kernel's
//! ("YUV Formats", "Luma-Only Formats"); FWHT is named like the kernel's, and its streams are those of
//! docs/FORMAT.md; DATA is our own.

use crate::Fourcc;

/// One plane of luma (V4L2_PIX_FMT_GREY).
pub const GREY: Fourcc = Fourcc(*b"GREY");

/// Three planes, chroma halved in both directions (V4L2_PIX_FMT_YUV420).
pub const YU12: Fourcc = Fourcc(*b"YU12");

/// A plane of luma and one of chroma pairs, halved in both directions (V4L2_PIX_FMT_NV12).
pub const NV12: Fourcc = Fourcc(*b"NV12");

/// Packed, chroma halved across (V4L2_PIX_FMT_YUYV).
pub const YUYV: Fourcc = Fourcc(*b"YUYV");

/// The coded format.
pub const FWHT: Fourcc = Fourcc(*b"FWHT");

/// Plain bytes: both formats of a copying context.
pub const DATA: Fourcc = Fourcc(*b"DATA");
