//! From words to a command.
ghost use Rattle.std.specs.Prelude.{◌≡◌, [], Some, Ok, Err, option_map, MatchResult, IfOk};
ghost use Rattle.command_words.specs.Words.{command_line, texts_of, items_of, first_fault, settings_given};
ghost use Rattle.command_words.specs.Words as words;
ghost use Rattle.command_words.specs.OperandTexts.{operand_texts};
ghost use Rattle.command_words.specs.Commands.{HasRange};
ghost use Rattle.command_words.specs.Seen.{command_of, refusal_of};
ghost use Rattle.command_words.specs.Given.{IsGivenBy};

use crate::command::{Command, RunFiles, Verb};
use crate::given::Given;
use crate::item::item_at;
use crate::operands::{Operands, seed_in};
use crate::refusal::{Refusal, WordFault};
use crate::settings::Settings;

// What the words after the command give.
fn given_by(verb: Verb, words: &[String]) -> Result<Given<'_>, Refusal<'_>>
    ensures { MatchResult result (IsGivenBy verb (items_of (texts_of words.now)))
        (λ r. first_fault verb [] (items_of (texts_of words.now)) ≡ Some (refusal_of r)) }
{
    let mut given = Given::nothing();
    let mut at = 0;
    while at < words.len() {
        let item = item_at(&words[at..]);
        given = given.with(verb, item)?;
        at += item.word_count();
    }
    Ok(given)
}

// The command, where no operand is missing.
fn command_with<'a>(verb: Verb, operands: Operands<'a>, settings: Settings) -> Option<Command<'a>>
    ensures { option_map command_of result ≡ words.command_with verb (operand_texts operands.entry) settings }
{
    match (verb, operands) {
        (Verb::Run, Operands::Two(script, input)) => {
            Some(Command::Run(RunFiles { script, input }, settings))
        }
        (Verb::Check, Operands::One(script)) => Some(Command::Check(script)),
        (Verb::Plan, Operands::One(script)) => Some(Command::Plan(script)),
        (Verb::Bridges, Operands::Two(input, name)) => {
            Some(Command::Bridges(input, name, settings.m))
        }
        (Verb::Trial, Operands::One(seed)) => Some(Command::Trial(seed_in(seed)?, settings)),
        _ => None,
    }
}

/// The command that the words ask for, or why they are refused.
///
/// The words are borrowed, and read once from left to right up to the first that is at fault.
pub fn read_words(words: &[String]) -> Result<Command<'_>, Refusal<'_>>
    ensures said { MatchResult result (λ c. command_line (texts_of words.now) ≡ Ok (command_of c))
        (λ r. command_line (texts_of words.now) ≡ Err (refusal_of r)) }
    ensures ranges { IfOk result (λ c. HasRange (command_of c)) }
{
    let Some((name, rest)) = words.split_first() else {
        return Err(Refusal::NoCommand);
    };
    let name = name.as_str();
    let Some(verb) = Verb::of_name(name) else {
        return Err(Refusal::At(name, WordFault::UnknownCommand));
    };
    let given = given_by(verb, rest)?;
    match command_with(verb, given.operands, given.settings()) {
        Some(command) => Ok(command),
        None => Err(Refusal::TooFewWords),
    }
}
