//! Worked rows: what the definitions compute of small blocks, headers and streams.

ghost use Rattle.vc_defs.specs.Rows.{WordsOfBlocks, BlocksOfWords, GreatestInverse, RepeatsOfBlocks, BytesOfHeaders, PlacesOfFrames};
ghost use Rattle.vc_defs.specs.RowsOfStreams.{ResultsOfFrames, FramesOfPictures, RawPictures, EncodedAgain, NumberedStreams, HostileStreams};

/// What an encoder writes for the values of a block.
pub fn words_of_blocks()
    ensures { WordsOfBlocks }
{}

/// What is read of words, and which words are no block.
pub fn blocks_of_words()
    ensures { BlocksOfWords }
{}

/// The inverse transform of the greatest first value of an I block.
pub fn greatest_inverse()
    ensures { GreatestInverse }
{}

/// One entry stands for 4,096 blocks at most.
pub fn repeats_of_blocks()
    ensures { RepeatsOfBlocks }
{}

/// The bytes and flags of headers, and what is read of bytes.
pub fn bytes_of_headers()
    ensures { BytesOfHeaders }
{}

/// Where frames begin and end in hostile bytes, and which are whole.
pub fn places_of_frames()
    ensures { PlacesOfFrames }
{}

/// What a decoder gives for an I frame, for one with a P frame behind it, and for a P frame alone.
pub fn results_of_frames()
    ensures { ResultsOfFrames }
{}

/// The frames that an encoder writes for pictures, its own reconstructions of some, and what a decoder gives for the frames of
/// one picture twice.
pub fn frames_of_pictures()
    ensures { FramesOfPictures }
{}

/// Pictures with chroma in raw formats, and their planes.
pub fn raw_pictures()
    ensures { RawPictures }
{}

/// Streams that are decoded and encoded again.
pub fn encoded_again()
    ensures { EncodedAgain }
{}

/// What is decoded of frames with numbers and without.
pub fn numbered_streams()
    ensures { NumberedStreams }
{}

/// What is decoded of hostile streams.
pub fn hostile_streams()
    ensures { HostileStreams }
{}
