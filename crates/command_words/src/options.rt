//! What is wrong with words that aren't the options of a command.
ghost use Rattle.std.specs.Prelude.{◌≡◌};
ghost use Rattle.command_words.specs.Options.{has_dash};

use crate::faults::WordFault;

pub(crate) fn begins_with_dash(word: &str) -> bool
    ensures { result ≡ has_dash word.now }
{
    matches!(word.as_bytes(), [b'-', ..])
}

/// The name of the option that a word is, and whether its value stands in the word too.
fn parted(word: &str) -> (&str, bool) {
    match word.split_once('=') {
        Some((name, _)) => (name, true),
        None => (word, false),
    }
}

/// Whether an option of this name is among these words.
fn stands_in(name: &str, words: &[&str]) -> bool {
    words.iter().any(|word| parted(word).0 == name)
}

/// What is wrong with words that aren't options of these names: the first that can't stand where
/// it does. Nobody asks of words that are, where there is nothing to say.
pub(crate) fn option_fault<'a>(names: &[&str], words: &[&'a str]) -> WordFault<'a> {
    let mut place = 0;
    while place < words.len() {
        let (name, has_value) = parted(words[place]);
        if !names.iter().any(|known| *known == name) {
            return WordFault::NoOption(words[place]);
        }
        if stands_in(name, &words[..place]) {
            return WordFault::Twice(name);
        }
        place += 1;
        if !has_value {
            match words.get(place) {
                Some(value) if !begins_with_dash(value) => place += 1,
                _ => return WordFault::NoValue(name),
            }
        }
    }
    WordFault::NoWords
}
