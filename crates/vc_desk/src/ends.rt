/// What a claim by a worker came to.
#[derive(Clone, Copy, Debug, PartialEq, Eq)]
pub enum ClaimEnd {
    /// The worker has a job already. Nothing happened.
    Busy,
    /// No slot waited for a worker.
    Empty,
    /// The worker took the job of the slot.
    Took { slot: u32 },
}

/// What a finish by a worker came to.
#[derive(Clone, Copy, Debug, PartialEq, Eq)]
pub enum FinishEnd {
    /// The worker has no job. Nothing happened.
    Idle,
    /// The job of the slot ended with this word, which is `fault` where the engine gave up.
    Ended {
        slot: u32,
        word: &'static str,
        fault: bool,
    },
}
