//! The operands of a command.
ghost use Rattle.std.specs.Prelude.{◌≡◌, ◌<◌, ◌∷◌, [], ◌++◌, length};
ghost use Rattle.command_words.specs.Words.{operand_fault, seed_in};
ghost use Rattle.command_words.specs.OperandTexts.{operand_texts};

use crate::command::Verb;
use crate::number::number_in;
use crate::refusal::WordFault;
use plain_text::is_name;

/// The operands so far.
#[derive(Clone, Copy)]
pub enum Operands<'a> {
    Nothing,
    One(&'a str),
    Two(&'a str, &'a str),
}

/// The seed that a word gives.
pub fn seed_in(word: &str) -> Option<u64>
    ensures { result ≡ seed_in word.now }
{
    number_in(0, u64::MAX, word)
}

impl<'a> Operands<'a> {
    fn len(self) -> usize
        ensures { result ≡ length (operand_texts self.entry) }
    {
        match self {
            Operands::Nothing => 0,
            Operands::One(_) => 1,
            Operands::Two(_, _) => 2,
        }
    }

    /// What is wrong with one more.
    pub fn fault(self, verb: Verb, word: &str) -> Option<WordFault>
        ensures { result ≡ operand_fault verb (operand_texts self.entry) word.now }
    {
        match (verb, self) {
            (Verb::Run, Operands::One(script)) => {
                (script == "-" && word == "-").then_some(WordFault::InputTwice)
            }
            (Verb::Bridges, Operands::One(_)) => {
                (!is_name(word.as_bytes())).then_some(WordFault::BadName)
            }
            (Verb::Trial, Operands::Nothing) => {
                seed_in(word).is_none().then_some(WordFault::BadNumber)
            }
            (verb, operands) => {
                (verb.operand_count() <= operands.len()).then_some(WordFault::OneTooMany)
            }
        }
    }

    /// One more.
    pub fn with(self, word: &'a str) -> Operands<'a>
        requires { length (operand_texts self) < 2 }
        ensures { operand_texts result ≡ operand_texts self.entry ++ word.now ∷ [] }
    {
        match self {
            Operands::Nothing => Operands::One(word),
            Operands::One(first) => Operands::Two(first, word),
            Operands::Two(_, _) => unreachable!(),
        }
    }
}
