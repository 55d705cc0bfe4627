/// Whether a report is what a device may print for a script.
#[derive(Clone, Copy, Debug, PartialEq, Eq)]
pub enum Verdict {
    /// It is.
    Yes,
    /// It isn't: no device prints its lines up to this one, counted from 1, for the script, but some device prints those before
    /// it. A report that ends too early is wrong at the first line that it lacks, and a last line without a line feed is
    /// wrong.
    No { line: u64 },
}

/// Why there is no verdict.
#[derive(Clone, Copy, Debug, PartialEq, Eq)]
pub enum AuditFault {
    /// The line of the script, counted from 1, is the first that isn't in the grammar of scripts.
    BadLine { line: u64 },
    /// The engine gave up in a job of which the report tells no fault.
    EngineFault,
    /// A growth of memory was refused.
    NoMemory,
}
