//! The options of `explore`.

ghost use Rattle.std.specs.Prelude.{◌≡◌};
ghost use Rattle.kn_words.specs.Lines.{words_of};
ghost use Rattle.kn_words.specs.Reading as reading;

use crate::number::is_number;

/// An option of `explore`.
#[derive(Clone, Copy, Debug, PartialEq, Eq)]
pub enum Name {
    /// How states are combined: `cob`.
    Mapping,
    /// How many workers there are: 1.
    Workers,
    /// The number that the network is made of, 0 to 35, in place of a file.
    Make,
}

/// Which options were given.
#[derive(Clone, Copy)]
pub struct Given {
    mapping: bool,
    workers: bool,
    make: bool,
}

/// Which options were given, and the one whose value comes next.
#[derive(Clone, Copy)]
pub struct Reading {
    given: Given,
    waiting: Option<Name>,
}

/// The option of this name.
fn name_of(text: &str) -> Option<Name>
    ensures { result ≡ reading.name_in text.now }
{
    match text {
        "--mapping" => Some(Name::Mapping),
        "--workers" => Some(Name::Workers),
        "--make" => Some(Name::Make),
        _ => None,
    }
}

/// Whether the option takes this value.
fn is_value(name: Name, value: &str) -> bool
    ensures { result ≡ reading.is_value name value.now }
{
    match name {
        Name::Mapping => value == "cob",
        Name::Workers => value == "1",
        Name::Make => is_number(value),
    }
}

impl Given {
    /// Whether the option was given.
    fn has(self, name: Name) -> bool
        ensures { result ≡ reading.is_given name self }
    {
        match name {
            Name::Mapping => self.mapping,
            Name::Workers => self.workers,
            Name::Make => self.make,
        }
    }

    /// The same, with this option.
    fn with(self, name: Name) -> Given
        ensures { result ≡ reading.giving name self }
    {
        match name {
            Name::Mapping => Given {
                mapping: true,
                ..self
            },
            Name::Workers => Given {
                workers: true,
                ..self
            },
            Name::Make => Given { make: true, ..self },
        }
    }

    /// After this option with this value. None where it was given before, or does not take the value.
    fn with_value(self, name: Name, value: &str) -> Option<Given>
        ensures { result ≡ reading.with_option name value.now self }
    {
        if !self.has(name) && is_value(name, value) {
            Some(self.with(name))
        } else {
            None
        }
    }
}

impl Reading {
    fn between(given: Given) -> Reading
        ensures { result ≡ reading.between given }
    {
        Reading {
            given,
            waiting: None,
        }
    }

    /// After the first word of an option. None where it names none, or gives a value that is refused.
    fn after_option(given: Given, word: &str) -> Option<Reading>
        ensures { result ≡ reading.after_option given word.now }
    {
        match word.split_once('=') {
            Some((text, value)) => {
                let name = name_of(text)?;
                let given = given.with_value(name, value)?;
                Some(Reading::between(given))
            }
            None => {
                let name = name_of(word)?;
                Some(Reading {
                    given,
                    waiting: Some(name),
                })
            }
        }
    }

    /// After one word more. None where the words are no options.
    fn after(self, word: &str) -> Option<Reading>
        ensures { result ≡ reading.after_word self word.now }
    {
        match self.waiting {
            Some(name) => {
                let given = self.given.with_value(name, word)?;
                Some(Reading::between(given))
            }
            None => Reading::after_option(self.given, word),
        }
    }
}

/// Whether the words are options: each at most once, and the mapping among them.
pub fn are_options(words: &[&str]) -> bool
    ensures { result ≡ reading.are_options (words_of words.now) }
{
    let mut reading = Reading::between(Given {
        mapping: false,
        workers: false,
        make: false,
    });
    for word in words {
        match reading.after(word) {
            Some(next) => reading = next,
            None => return false,
        }
    }
    reading.waiting.is_none() && reading.given.mapping
}
