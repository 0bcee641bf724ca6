// How a run ends.
ghost use Rattle.std.specs.Prelude.{◌≡◌};
ghost use Rattle.programs.specs.Status.{code_of, text_of};

/// How a run ends. Each status has a code for the process and a text for standard error.
#[derive(Clone, Copy, Debug, PartialEq, Eq)]
pub enum Status {
    /// The source was read to its end, and everything was written.
    Done,
    /// The words are no job; nothing was read.
    Usage,
    /// Reading failed.
    ReadFault,
    /// The source has more than 16,777,216 bytes.
    TooLong,
    /// What was read is not UTF-8.
    NotUtf8,
    /// A character of the text is wider than the page.
    TooNarrow,
    /// Writing failed; a prefix of the output was written.
    WriteFault,
    /// There was not enough memory; nothing was written.
    Memory,
}

impl Status {
    /// The exit code of the process.
    pub fn code(self) -> u8
        ensures { result ≡ code_of self }
    {
        match self {
            Status::Done => 0,
            Status::Usage => 2,
            Status::ReadFault => 3,
            Status::TooLong => 4,
            Status::NotUtf8 => 5,
            Status::TooNarrow => 6,
            Status::WriteFault => 7,
            Status::Memory => 8,
        }
    }

    /// The text for standard error, without its line end; empty for `Done`.
    pub fn text(self) -> &'static str
        ensures { result.now ≡ text_of self }
    {
        match self {
            Status::Done => "",
            Status::Usage => "mdview: bad arguments",
            Status::ReadFault => "mdview: reading failed",
            Status::TooLong => "mdview: more than 16777216 bytes",
            Status::NotUtf8 => "mdview: input is not UTF-8",
            Status::TooNarrow => "mdview: a character is wider than the page",
            Status::WriteFault => "mdview: writing failed",
            Status::Memory => "mdview: out of memory",
        }
    }
}
