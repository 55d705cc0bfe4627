//! What is proved of writing frames and reading them.

ghost use Rattle.vc_frame.specs.Laws.{FramesComeBack};

/// No drift, frame by frame: what a decoder makes of a frame over the encoder's reference is exactly the encoder's new
/// reference, and so it is with the frame after it.
pub fn frames_come_back()
    ensures { FramesComeBack }
{}
