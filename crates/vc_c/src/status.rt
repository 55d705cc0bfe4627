//! What a call came to.

ghost use Rattle.std.specs.Prelude.{◌≡◌};
ghost use Rattle.vc_c.specs.Statuses.{number_of};

/// What a call came to. c/sirgumba.h has the same list, with the number of each.
#[derive(Clone, Copy, Debug, PartialEq, Eq)]
pub enum Status {
    /// It was done.
    Done,
    /// The device was not made, or was freed.
    NotMade,
    /// The device is made already.
    InUse,
    /// A number is out of range.
    BadNumber,
    /// A body has no bytes, or more than the longest message.
    BadLength,
    /// The reply may need more room.
    WantsRoom,
    /// Memory was refused.
    NoMemory,
    /// The device made 2^62 steps.
    TooManySteps,
}

impl Status {
    /// The number of the status in C.
    pub fn number(self) -> u32
        ensures { result ≡ number_of self }
    {
        match self {
            Status::Done => 0,
            Status::NotMade => 1,
            Status::InUse => 2,
            Status::BadNumber => 3,
            Status::BadLength => 4,
            Status::WantsRoom => 5,
            Status::NoMemory => 6,
            Status::TooManySteps => 10,
        }
    }
}
