//! Laws over the codec and the wire, proved from the definitions alone.

ghost use Rattle.vc_wire_laws.specs.Laws.{CodecHasReplies, CodecRunsAreShort};

/// No run of the codec gives more bytes than the longest buffer has, whatever happened to the slot before.
pub fn codec_runs_are_short()
    ensures { CodecRunsAreShort }
{}

/// Whatever messages come, and whatever memory and the engine choose at each of them, the device has an output for them.
pub fn codec_has_replies()
    ensures { CodecHasReplies }
{}
