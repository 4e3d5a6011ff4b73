//! Commands, with their operands and settings.
ghost use Rattle.std.specs.Prelude.{◌≡◌};

use crate::settings::Settings;

/// Which command.
#[derive(Clone, Copy)]
pub enum Verb {
    Run,
    Check,
    Plan,
    Bridges,
    Trial,
}

impl Verb {
    ghost use Rattle.command_words.specs.Commands.{name_of, operand_count, settings_of, verb_of, setting_of};

    const ALL: [Verb; 5] = [
        Verb::Run,
        Verb::Check,
        Verb::Plan,
        Verb::Bridges,
        Verb::Trial,
    ];

    fn name(self) -> &'static str
        ensures { result.now ≡ name_of self }
    {
        match self {
            Verb::Run => "run",
            Verb::Check => "check",
            Verb::Plan => "plan",
            Verb::Bridges => "bridges",
            Verb::Trial => "trial",
        }
    }

    /// The command of this name.
    pub fn of_name(word: &str) -> Option<Verb>
        ensures { result ≡ verb_of word.now }
    {
        Verb::ALL.iter().copied().find(|verb| word == verb.name())
    }

    /// How many operands it has.
    pub fn operand_count(self) -> usize
        ensures { result ≡ operand_count self }
    {
        match self {
            Verb::Check | Verb::Plan | Verb::Trial => 1,
            Verb::Run | Verb::Bridges => 2,
        }
    }

    fn settings(self) -> &'static [Setting]
        ensures { result.now ≡ settings_of self }
    {
        match self {
            Verb::Run | Verb::Trial => &[Setting::M, Setting::Block, Setting::Workers],
            Verb::Bridges => &[Setting::M],
            Verb::Check | Verb::Plan => &[],
        }
    }

    /// What it lets this option set.
    pub fn setting_of(self, word: &str) -> Option<Setting>
        ensures { result ≡ setting_of self word.now }
    {
        let settings = self.settings();
        settings
            .iter()
            .copied()
            .find(|setting| word == setting.option())
    }
}

/// What an option sets.
#[derive(Clone, Copy)]
pub enum Setting {
    M,
    Block,
    Workers,
}

impl Setting {
    ghost use Rattle.command_words.specs.Commands.{option_of, greatest_of, default_of};

    fn option(self) -> &'static str
        ensures { result.now ≡ option_of self }
    {
        match self {
            Setting::M => "--m",
            Setting::Block => "--block",
            Setting::Workers => "--workers",
        }
    }

    /// The greatest value that may be given; the least is 1.
    pub fn greatest(self) -> u32
        ensures { result ≡ greatest_of self }
    {
        match self {
            Setting::M | Setting::Block => u32::MAX,
            Setting::Workers => 64,
        }
    }

    /// The value where none is given.
    pub fn default_value(self) -> u32
        ensures { result ≡ default_of self }
    {
        match self {
            Setting::M => 1024,
            Setting::Block => 4096,
            Setting::Workers => 2,
        }
    }
}

/// The files of a run.
#[derive(Clone, Copy)]
pub struct RunFiles<'a> {
    pub script: &'a str,
    pub input: &'a str,
}

/// A command with its operands and settings. Files and names are the words as given.
#[derive(Clone, Copy)]
pub enum Command<'a> {
    /// Run a script over data.
    Run(RunFiles<'a>, Settings),
    /// Tell the types of a script.
    Check(&'a str),
    /// Tell what of a script is built.
    Plan(&'a str),
    /// Tell the bridges of a tree: the file, the tree's name, and m.
    Bridges(&'a str, &'a str, u32),
    /// Run the trial's script on data from a seed.
    Trial(u64, Settings),
}
