//! Laws of feeding, proved from the definitions alone.

ghost use Rattle.vc_resync.specs.Decoding.{BeginsInStep, DecodesByFeeds, RunsEnd};

/// Before any bytes the finds that were told and the results that were given are in step.
pub fn begins_in_step()
    ensures { BeginsInStep }
{}

/// From what is kept of any bytes a run over any others ends: feeds tell so many finds and no more.
pub fn runs_end()
    ensures { RunsEnd }
{}

/// A run of a decoder is what feeds come to, one after the other: it ends with the first find that gives a result, or with
/// the bytes. Where it ends the finds that were told and the results that were given are in step again.
pub fn decodes_by_feeds()
    ensures { DecodesByFeeds }
{}
