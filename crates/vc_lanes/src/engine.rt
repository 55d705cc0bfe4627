//! The lane engine.

use crate::LaneCoder;
use vc_engine::CodecEngine;

/// The engine that codes blocks by vectors.
pub type LaneEngine = CodecEngine<LaneCoder>;
