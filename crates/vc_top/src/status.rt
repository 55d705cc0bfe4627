ghost use Rattle.std.specs.Prelude.{◌≡◌};
ghost use Rattle.vc_top.specs.Statuses.{status_number, status_text};

/// How a command ended.
#[derive(Clone, Copy, Debug, PartialEq, Eq)]
pub enum Status {
    /// The input was read to its end (`make` and `share` read none) and all output was written. Exit status 0.
    Fine,
    /// The words ask for none of the commands that are built. Nothing was read, written or run. Exit status 2.
    Usage,
    /// The input could not be read. Exit status 3.
    ReadFault,
    /// The output could not be written. Exit status 4.
    WriteFault,
    /// The line, counted from 1, is the first that isn't in the grammar of scripts. Exit status 5.
    BadLine { line: u64 },
    /// The coded input has a damaged frame, or a byte in no frame. Every good picture was written. Exit status 6.
    Damaged,
    /// The raw input ends inside a picture. The frames of the whole ones were written. Exit status 7.
    ShortRaw,
    /// An engine gave up in a job. A script and the messages of the wire were carried out to their end all the same;
    /// `encode` and `decode` stopped, and `share` wrote nothing. Exit status 8.
    EngineFault,
    /// The script has more than 1,048,576 bytes, the input of an audit more than 268,435,456, or 2^40 bytes of video or of
    /// messages were read. Exit status 10.
    TooLong,
    /// The report isn't one that a device may print for the script. The line, counted from 1, is its first wrong one, and
    /// the verdict with it was written. Exit status 11.
    NotARun { line: u64 },
    /// A growth of memory was refused. Exit status 12.
    NoMemory,
    /// At this byte of the input, counted from 0, a message begins whose length is out of range, or inside of which the
    /// input ends. The messages before it were answered. Exit status 13.
    BadMessage { at: u64 },
}

impl Status {
    /// The exit status.
    pub fn number(self) -> u8
        ensures { result ≡ status_number self }
    {
        match self {
            Status::Fine => 0,
            Status::Usage => 2,
            Status::ReadFault => 3,
            Status::WriteFault => 4,
            Status::BadLine { .. } => 5,
            Status::Damaged => 6,
            Status::ShortRaw => 7,
            Status::EngineFault => 8,
            Status::TooLong => 10,
            Status::NotARun { .. } => 11,
            Status::NoMemory => 12,
            Status::BadMessage { .. } => 13,
        }
    }

    /// What the program says of it on standard error. The number of the line or of the byte comes behind it where there
    /// is one, and nothing is said where the end is fine.
    pub fn text(self) -> &'static str
        ensures { result.now ≡ status_text self }
    {
        match self {
            Status::Fine => "fine",
            Status::Usage => "usage",
            Status::ReadFault => "read fault",
            Status::WriteFault => "write fault",
            Status::BadLine { .. } => "bad line",
            Status::Damaged => "damaged stream",
            Status::ShortRaw => "short raw picture",
            Status::EngineFault => "engine fault",
            Status::TooLong => "too long",
            Status::NotARun { .. } => "not a run, line",
            Status::NoMemory => "no memory",
            Status::BadMessage { .. } => "bad message at",
        }
    }
}
