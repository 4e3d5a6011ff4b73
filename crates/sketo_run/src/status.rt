//! The statuses of the program.
ghost use Rattle.std.specs.Prelude.{◌≡◌};
ghost use Rattle.sketo_run.specs.Statuses.{code_of};

/// How the program ended.
#[derive(Clone, Copy, Debug, PartialEq, Eq)]
pub enum Status {
    /// Answered; the full text is on output.
    Answered,
    /// The words are refused.
    WordsRefused,
    /// The script is refused.
    ScriptRefused,
    /// The data is refused.
    DataRefused,
    /// A read failed.
    ReadFailed,
    /// A write to output failed.
    WriteFailed,
    /// Memory was refused; nothing was written to output.
    NoMemory,
    /// A form that isn't built yet.
    NotBuilt,
}

impl Status {
    /// The number that the program ends with.
    pub fn code(self) -> u8
        ensures { result ≡ code_of self }
    {
        match self {
            Status::Answered => 0,
            Status::WordsRefused => 2,
            Status::ScriptRefused => 3,
            Status::DataRefused => 4,
            Status::ReadFailed => 5,
            Status::WriteFailed => 6,
            Status::NoMemory => 7,
            Status::NotBuilt => 8,
        }
    }
}
