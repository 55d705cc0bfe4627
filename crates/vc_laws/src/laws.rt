//! Laws over the runs of one slot, proved from the definitions alone. Their subjects are "Drain", "Seek" and "Dynamic
//! Resolution Change" of the memory-to-memory stateful video decoder interface, and "Drain" of the stateful video encoder
//! interface, in the Linux userspace API documentation.

ghost use Rattle.vc_laws.specs.Drains.{AbortedByOff, AllWentBack, ChangesStop, DrainsAreWhole, DrainsBeginAtStop, DrainsEncodeAll, DrainsGiveAll};
ghost use Rattle.vc_laws.specs.Drains.{EncodesInOrder, FrameAfterChange, MarksStay, NothingAfterLast, ResultsBeforeChange, SameDrainsSameResults};
ghost use Rattle.vc_laws.specs.Drains.{StopsByChange};
ghost use Rattle.vc_laws.specs.FirstFormats.{DecodersHandOutPictures, PicturesAreInFirst};
ghost use Rattle.vc_laws.specs.Taking.{AllIsHandedOut, DoneIsRetired, FramesAreHandedOut, HandedInOrder, PicturesAreHandedOut, TakenInOrder};
ghost use Rattle.vc_laws.specs.Following.{EncoderFollows, Follows, RetiredAreFrames, RetiredAreResults, SegmentsBegin};

/// A drain begins at a STOP alone, and its mark is the number of OUTPUT buffers queued before it.
pub fn drains_begin_at_stop()
    ensures { DrainsBeginAtStop }
{}

/// Until it is removed a mark stays as it was set.
pub fn marks_stay()
    ensures { MarksStay }
{}

/// A drain is aborted by a StreamOff or a Close alone.
pub fn aborted_by_off()
    ensures { AbortedByOff }
{}

/// After the LAST buffer of a drain no CAPTURE buffer goes to done before the phase is Run again.
pub fn nothing_after_last()
    ensures { NothingAfterLast }
{}

/// Where the LAST buffer of a drain is given no job is left, and it is the latest that went to done.
pub fn all_went_back()
    ensures { AllWentBack }
{}

/// While a decoder stops by a change no CAPTURE buffer goes to done but one empty LAST buffer.
pub fn stops_by_change()
    ensures { StopsByChange }
{}

/// A run that finds a change, while CAPTURE streams, begins such a stop.
pub fn changes_stop()
    ensures { ChangesStop }
{}

/// Where a decoder gives the LAST buffer of a drain, its runs consumed the sources before the mark, each whole and in order.
pub fn drains_are_whole()
    ensures { DrainsAreWhole }
{}

/// An encoder's runs consume its sources in order, each once, and where it gives the LAST buffer of a drain all those before
/// the mark, unless the user took sources back.
pub fn drains_encode_all()
    ensures order { EncodesInOrder }
    ensures drains { DrainsEncodeAll }
{}

/// The frames of an encoder's segment are those of the sequential encoder for the pictures that its runs consumed.
pub fn encoder_follows()
    ensures { EncoderFollows }
{}

/// The CAPTURE buffers that a decoder's runs put on done are the segment's results other than changes, one for one.
pub fn retired_are_results()
    ensures { RetiredAreResults }
{}

/// The CAPTURE buffers that an encoder's runs put on done are the segment's frames, one for one.
pub fn retired_are_frames()
    ensures { RetiredAreFrames }
{}

/// Before the first run of a segment it has neither bytes nor results.
pub fn segments_begin()
    ensures { SegmentsBegin }
{}

/// Where the LAST buffer of a change is given, the results before it are all in buffers that went to done before it.
pub fn results_before_change()
    ensures { ResultsBeforeChange }
{}

/// The results of a decoder's segment are the sequential decoder's for the bytes that its runs consumed.
pub fn follows()
    ensures { Follows }
{}

/// Where a decoder gives the LAST buffer of a drain, all results of the segment's bytes were given.
pub fn drains_give_all()
    ensures { DrainsGiveAll }
{}

/// The next result of a segment after a change is that of the frame that raised it.
pub fn frame_after_change()
    ensures { FrameAfterChange }
{}

/// Neither schedule nor cutting matters to a finished drain.
pub fn same_drains()
    ensures { SameDrainsSameResults }
{}

/// The client takes what goes to done on CAPTURE in that order, each buffer once and with its bytes.
pub fn taken_in_order()
    ensures steps { TakenInOrder }
    ensures runs { HandedInOrder }
    ensures segments { DoneIsRetired }
{}

/// What goes to done on CAPTURE has the bytes of the segment's pictures, or frames, in order, and nothing else.
pub fn pictures_are_handed_out()
    ensures decoders { PicturesAreHandedOut }
    ensures encoders { FramesAreHandedOut }
{}

/// Over a run of one segment that drops nothing and leaves nothing on done, the client gets all pictures of the segment, or the
/// sequential encoder's frames for the pictures that were consumed, in order.
pub fn all_is_handed_out()
    ensures { AllIsHandedOut }
{}

/// A client that asked for no format of CAPTURE gets each picture in the first raw format of its layout.
pub fn pictures_are_in_first()
    ensures { PicturesAreInFirst }
{}

/// Over a run of one segment that drops nothing and gave all its results, such a client gets exactly the sequential decoder's
/// pictures of the bytes consumed.
pub fn decoders_hand_out_pictures()
    ensures { DecodersHandOutPictures }
{}
