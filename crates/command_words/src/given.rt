//! What items gave.
ghost use Rattle.std.specs.Prelude.{◌≡◌, ◌∷◌, [], ◌++◌, List, Some, None, MatchResult, option_map, option_and_then};
ghost use Rattle.command_words.specs.Words as words;
ghost use Rattle.command_words.specs.Words.{operand, option, operand_fault, value_in, value_fault, fault_of, settings_given};
ghost use Rattle.command_words.specs.Seen.{item_of, refusal_of};
ghost use Rattle.command_words.specs.Given.{IsGiven, IsGivenNext, value_kept, kept_with};

use crate::command::{Setting, Verb};
use crate::item::Item;
use crate::number::number_in;
use crate::operands::Operands;
use crate::refusal::{Refusal, WordFault};
use crate::settings::Settings;

/// The operands, and the values of the settings that were given.
#[derive(Clone, Copy)]
pub struct Given<'a> {
    pub operands: Operands<'a>,
    pub m: Option<u32>,
    pub block: Option<u32>,
    pub workers: Option<u32>,
}

fn value_in(setting: Setting, word: &str) -> Option<u32>
    ensures { result ≡ value_in setting word.now }
{
    let n = number_in(1, u64::from(setting.greatest()), word)?;
    Some(n as u32)
}

// The value of an option, which the next word gives.
fn value_given<'a>(
    setting: Setting,
    word: &'a str,
    value: Option<&'a str>,
) -> Result<u32, Refusal<'a>>
    ensures fault { MatchResult result (λ _. value_fault setting word.now (option_map (λ v. v.now) value.entry) ≡ None)
        (λ r. value_fault setting word.now (option_map (λ v. v.now) value.entry) ≡ Some (refusal_of r)) }
    ensures value { MatchResult result (λ n. option_and_then (value_in setting) (option_map (λ v. v.now) value.entry) ≡ Some n) (λ _. Unit {0}) }
{
    let Some(value) = value else {
        return Err(Refusal::At(word, WordFault::NoValue));
    };
    match value_in(setting, value) {
        Some(n) => Ok(n),
        None => Err(Refusal::At(value, WordFault::BadNumber)),
    }
}

impl<'a> Given<'a> {
    /// Nothing yet.
    pub fn nothing() -> Given<'a>
        ensures { IsGiven [] result }
    {
        Given {
            operands: Operands::Nothing,
            m: None,
            block: None,
            workers: None,
        }
    }

    fn value(self, setting: Setting) -> Option<u32>
        ensures { result ≡ value_kept setting self.entry }
    {
        match setting {
            Setting::M => self.m,
            Setting::Block => self.block,
            Setting::Workers => self.workers,
        }
    }

    fn with_value(self, setting: Setting, value: u32) -> Given<'a>
        ensures { result ≡ kept_with setting value self.entry }
    {
        match setting {
            Setting::M => Given {
                m: Some(value),
                ..self
            },
            Setting::Block => Given {
                block: Some(value),
                ..self
            },
            Setting::Workers => Given {
                workers: Some(value),
                ..self
            },
        }
    }

    fn with_operand(self, verb: Verb, word: &'a str) -> Result<Given<'a>, Refusal<'a>>
        ensures { (before : List words.Item) → IsGiven before self.entry → MatchResult result (IsGivenNext verb before (operand word.entry.now))
            (λ r. fault_of verb before (operand word.entry.now) ≡ Some (refusal_of r)) }
    {
        match self.operands.fault(verb, word) {
            Some(fault) => Err(Refusal::At(word, fault)),
            None => Ok(Given {
                operands: self.operands.with(word),
                ..self
            }),
        }
    }

    fn with_option(
        self,
        verb: Verb,
        word: &'a str,
        value: Option<&'a str>,
    ) -> Result<Given<'a>, Refusal<'a>>
        ensures { (before : List words.Item) → IsGiven before self.entry → MatchResult result (IsGivenNext verb before (option word.entry.now (option_map (λ v. v.now) value.entry)))
            (λ r. fault_of verb before (option word.entry.now (option_map (λ v. v.now) value.entry)) ≡ Some (refusal_of r)) }
    {
        let Some(setting) = verb.setting_of(word) else {
            return Err(Refusal::At(word, WordFault::UnknownOption));
        };
        if self.value(setting).is_some() {
            return Err(Refusal::At(word, WordFault::GivenTwice));
        }
        let value = value_given(setting, word, value)?;
        Ok(self.with_value(setting, value))
    }

    /// With one item more.
    pub fn with(self, verb: Verb, item: Item<'a>) -> Result<Given<'a>, Refusal<'a>>
        ensures { (before : List words.Item) → IsGiven before self.entry → MatchResult result (IsGivenNext verb before (item_of item.entry))
            (λ r. fault_of verb before (item_of item.entry) ≡ Some (refusal_of r)) }
    {
        match item {
            Item::Operand(word) => self.with_operand(verb, word),
            Item::Dashed(word, value) => self.with_option(verb, word, value),
        }
    }

    /// The settings, and the defaults where none were given.
    pub fn settings(self) -> Settings
        ensures { (items : List words.Item) → IsGiven items self.entry → result ≡ settings_given items }
    {
        Settings {
            m: self.m.unwrap_or(Setting::M.default_value()),
            block: self.block.unwrap_or(Setting::Block.default_value()),
            workers: self.workers.unwrap_or(Setting::Workers.default_value()),
        }
    }
}
