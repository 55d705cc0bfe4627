//! Worked rows: what the definitions say of the segments of short runs.

ghost use Rattle.vc_laws.specs.SegmentRows.{ChangeRetired, ChangeWaits, ChangedResults, CutBytes, CutResults, CutStamps, EncoderFrames, EncoderRetired};
ghost use Rattle.vc_laws.specs.SegmentRows.{EncoderTakesBack, ListedBytes, ListedResults, ListedRetired, ListedSources, ListedStamps, SoughtBytes, TwoBytes};
ghost use Rattle.vc_laws.specs.SegmentRows.{TwoResults, TwoRetired, TwoRetiredBytes, TwoStamps};

/// The definitions compute these rows with the codec itself: two frames in one buffer, a frame in 48 pieces, a stream that
/// changes, a restart of OUTPUT, and an encoder.
pub fn segment_rows()
    ensures two_bytes { TwoBytes }
    ensures two_results { TwoResults }
    ensures two_stamps { TwoStamps }
    ensures two_retired { TwoRetired }
    ensures two_retired_bytes { TwoRetiredBytes }
    ensures cut_bytes { CutBytes }
    ensures cut_results { CutResults }
    ensures cut_stamps { CutStamps }
    ensures change_waits { ChangeWaits }
    ensures change_retired { ChangeRetired }
    ensures changed_results { ChangedResults }
    ensures sought_bytes { SoughtBytes }
    ensures encoder_frames { EncoderFrames }
    ensures encoder_retired { EncoderRetired }
    ensures encoder_takes_back { EncoderTakesBack }
{}

/// The definitions compute these rows with a coder that gives the results of a list: a drain of two buffers.
pub fn listed_rows()
    ensures listed_bytes { ListedBytes }
    ensures listed_sources { ListedSources }
    ensures listed_results { ListedResults }
    ensures listed_stamps { ListedStamps }
    ensures listed_retired { ListedRetired }
{}
