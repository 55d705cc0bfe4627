use vc_base::Format;

/// What a command line asks for.
#[derive(Clone, Copy, Debug, PartialEq, Eq)]
pub enum Command {
    /// Carry out a script of calls.
    Script(ScriptOptions),
    /// Code raw pictures.
    Encode(EncodeOptions),
    /// Decode a coded stream.
    Decode(DecodeOptions),
    /// Write pictures of the generator.
    Make(MakeOptions),
    /// Code pictures of the generator in many contexts at once.
    Share(ShareOptions),
    /// Decode a coded stream and code its pictures again.
    Transcode(TranscodeOptions),
    /// Judge a report of a script.
    Audit(AuditOptions),
    /// Serve calls as messages.
    Wire(WireOptions),
}

/// The options of `script`.
#[derive(Clone, Copy, Debug, PartialEq, Eq)]
pub struct ScriptOptions {
    /// How many contexts there may be, 1 to 1,024.
    pub slots: u32,
}

/// The rates of an encoder.
#[derive(Clone, Copy, Debug, PartialEq, Eq)]
pub struct RateOptions {
    /// The GOP length, 1 to 16.
    pub gop: u32,
    /// The qp of I frames, 1 to 31.
    pub iqp: u32,
    /// The qp of P frames, 1 to 31.
    pub pqp: u32,
}

/// The options of `encode`.
#[derive(Clone, Copy, Debug, PartialEq, Eq)]
pub struct EncodeOptions {
    /// The raw format of the pictures.
    pub format: Format,
    pub rates: RateOptions,
    /// How many workers run jobs, 1 to 16.
    pub workers: u32,
}

/// The options of `decode`.
#[derive(Clone, Copy, Debug, PartialEq, Eq)]
pub struct DecodeOptions {
    /// How many workers run jobs, 1 to 16.
    pub workers: u32,
}

/// The options of `make`.
#[derive(Clone, Copy, Debug, PartialEq, Eq)]
pub struct MakeOptions {
    /// The raw format of the pictures.
    pub format: Format,
    /// How many pictures, 1 to 1,000,000.
    pub pictures: u32,
    /// The generator's number, at most 1,000,000.
    pub number: u32,
}

/// The options of `share`.
#[derive(Clone, Copy, Debug, PartialEq, Eq)]
pub struct ShareOptions {
    /// How many contexts, 1 to 64.
    pub contexts: u32,
    /// The raw format of the pictures, which is `YU12`.
    pub format: Format,
    /// How many pictures a context codes, 1 to 1,000.
    pub pictures: u32,
    /// The generator's number in the first context, at most 1,000,000.
    pub number: u32,
    /// How many workers run jobs, 1 to 16.
    pub workers: u32,
}

/// The options of `transcode`.
#[derive(Clone, Copy, Debug, PartialEq, Eq)]
pub struct TranscodeOptions {
    pub rates: RateOptions,
    /// How many workers run jobs, 1 to 16.
    pub workers: u32,
}

/// The options of `audit`.
#[derive(Clone, Copy, Debug, PartialEq, Eq)]
pub struct AuditOptions {
    /// How many contexts the script has, 1 to 1,024.
    pub slots: u32,
}

/// The options of `wire`.
#[derive(Clone, Copy, Debug, PartialEq, Eq)]
pub struct WireOptions {
    /// How many contexts there may be, 1 to 1,024.
    pub slots: u32,
}
