//! Which words are a command line.

ghost use Rattle.std.specs.Prelude.{◌↔◌, ◌≡◌, IsTrue};
ghost use Rattle.kn_words.specs.Lines.{IsCommandLine, words_of};
ghost use Rattle.kn_words.specs.Reading as reading;

use crate::number::is_number;
use crate::options::are_options;

/// The first word of a command line.
#[derive(Clone, Copy, Debug, PartialEq, Eq)]
pub enum Verb {
    Explore,
    Replay,
    Make,
}

/// What a first word asks for. None where it is another word.
fn verb_named(word: &str) -> Option<Verb>
    ensures { result ≡ reading.verb_named word.now }
{
    match word {
        "explore" => Some(Verb::Explore),
        "replay" => Some(Verb::Replay),
        "make" => Some(Verb::Make),
        _ => None,
    }
}

/// What the first of the words asks for. None where there is none, or it is another word.
pub fn verb_of(words: &[&str]) -> Option<Verb>
    ensures { result ≡ reading.verb_in (words_of words.now) }
{
    match words {
        [first, ..] => verb_named(first),
        [] => None,
    }
}

/// Whether the words are one number from 0 to 35.
fn is_one_number(words: &[&str]) -> bool
    ensures { result ≡ reading.is_one_number (words_of words.now) }
{
    match words {
        [number] => is_number(number),
        _ => false,
    }
}

/// Whether the words after the first are in their form.
fn rest_ok(verb: Verb, rest: &[&str]) -> bool
    ensures { result ≡ reading.rest_ok verb (words_of rest.now) }
{
    match verb {
        Verb::Explore => are_options(rest),
        Verb::Replay => rest.is_empty(),
        Verb::Make => is_one_number(rest),
    }
}

/// Whether the words are a command line: `explore` with options, `replay`, or `make` with a number from 0 to 35. Each option
/// is two words or one with `=`, they come in any order and each at most once: `--mapping cob`, which has to be there,
/// `--workers 1`, and `--make` with a number from 0 to 35.
pub fn words_ok(words: &[&str]) -> bool
    ensures { IsTrue result ↔ IsCommandLine (words_of words.now) }
{
    let [first, rest @ ..] = words else {
        return false;
    };
    match verb_named(first) {
        Some(verb) => rest_ok(verb, rest),
        None => false,
    }
}
