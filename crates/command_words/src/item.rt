//! Operands and options among the words.
ghost use Rattle.std.specs.Prelude.{◌≡◌, ◌∷◌, ◌<◌, ◌≤◌, length, drop};
ghost use Rattle.command_words.specs.Words.{is_option, items_of, texts_of};
ghost use Rattle.command_words.specs.Seen.{item_of, word_count};

/// What stands after the command.
#[derive(Clone, Copy)]
pub enum Item<'a> {
    Operand(&'a str),
    /// An option, and the word after it.
    Dashed(&'a str, Option<&'a str>),
}

impl<'a> Item<'a> {
    ghost use Rattle.command_words.specs.Seen.{word_count};

    /// How many words it is.
    pub fn word_count(self) -> usize
        ensures { result ≡ word_count self.entry }
    {
        match self {
            Item::Operand(_) | Item::Dashed(_, None) => 1,
            Item::Dashed(_, Some(_)) => 2,
        }
    }
}

fn is_option(word: &str) -> bool
    ensures { result ≡ is_option word.now }
{
    word.as_bytes().starts_with(b"--")
}

/// The item that begins with the first of these words.
pub fn item_at(words: &[String]) -> Item<'_>
    requires { 0 < length words.now }
    ensures item { items_of (texts_of words.now) ≡ item_of result ∷ items_of (texts_of (drop (word_count result) words.now)) }
    ensures within { word_count result ≤ length words.now }
{
    let word = words[0].as_str();
    if !is_option(word) {
        return Item::Operand(word);
    }
    match words.get(1) {
        None => Item::Dashed(word, None),
        Some(value) => Item::Dashed(word, Some(value.as_str())),
    }
}
