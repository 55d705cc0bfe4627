//! Laws of coded streams, proved from the definitions alone.

ghost use Rattle.vc_coverage.specs.KeyHeaders.{NoResultsWithoutKeyHeader, NoOutputWithoutKeyHeader};

/// A stream in which no header of an I frame stands has no results for a decoder that begins with no geometry: no
/// picture, no damaged frame and no change.
pub fn no_results_without_key_header()
    ensures { NoResultsWithoutKeyHeader }
{}

/// What is written for such a stream is nothing, and it is damaged exactly where one of its bytes lies in no frame.
pub fn no_output_without_key_header()
    ensures { NoOutputWithoutKeyHeader }
{}
