//! Laws of streams that are coded again, part by part.

ghost use Rattle.vc_chain.specs.Recoded.{RecodingBegins, SegmentsAddUp, CutSegmentsAddUp};
ghost use Rattle.vc_chain.specs.Parts.{ChainedIsOfResults, NoChangeNoFrames, PartsGoOn, PartsAreFirst};

/// What an input is coded into again follows from its results alone.
pub fn chained_is_of_results()
    ensures { ChainedIsOfResults }
{}

/// Before the first change of geometry nothing is coded.
pub fn no_change_no_frames()
    ensures { NoChangeNoFrames }
{}

/// Behind a change the frames of the pictures that follow it come next, by an encoder of their own.
pub fn parts_go_on()
    ensures { PartsGoOn }
{}

/// They are there first, whatever results come later.
pub fn parts_are_first()
    ensures { PartsAreFirst }
{}

/// Before the first part of a stream nothing was coded again.
pub fn recoding_begins()
    ensures { RecodingBegins }
{}

/// A segment that ended adds the frames of its part.
pub fn segments_add_up()
    ensures { SegmentsAddUp }
{}

/// A segment that was cut short adds a prefix of them.
pub fn cut_segments_add_up()
    ensures { CutSegmentsAddUp }
{}
