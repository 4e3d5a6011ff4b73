//! Why words are refused.
ghost use Rattle.std.specs.Prelude.{◌≡◌};

/// What is wrong with a word.
#[derive(Clone, Copy)]
pub enum WordFault {
    UnknownCommand,
    UnknownOption,
    GivenTwice,
    NoValue,
    BadNumber,
    BadName,
    InputTwice,
    OneTooMany,
}

impl WordFault {
    ghost use Rattle.command_words.specs.Refusals.{text_of};

    /// The text that tells of it.
    pub fn text(self) -> &'static str
        ensures { result.now ≡ text_of self }
    {
        match self {
            WordFault::UnknownCommand => "unknown command",
            WordFault::UnknownOption => "unknown option",
            WordFault::GivenTwice => "given twice",
            WordFault::NoValue => "no value",
            WordFault::BadNumber => "bad number",
            WordFault::BadName => "bad name",
            WordFault::InputTwice => "standard input twice",
            WordFault::OneTooMany => "one word too many",
        }
    }
}

/// Why words are refused.
#[derive(Clone, Copy)]
pub enum Refusal<'a> {
    /// There are no words.
    NoCommand,
    /// A word is at fault.
    At(&'a str, WordFault),
    /// Operands are missing.
    TooFewWords,
}
