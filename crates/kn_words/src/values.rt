//! The values of a command line, as clap takes them.

ghost use Rattle.std.specs.Prelude.{◌≡◌, ℕ, Option, IfOk, IfErr, MatchOption};
ghost use Rattle.clap.specs.Words.{app_of, kind_of};
ghost use Rattle.kn_words.specs.Commands.{explore_app, make_app};
ghost use Rattle.kn_words.specs.Lines.{Explores, IsCommandLine, IsLine, words_of};
ghost use Rattle.kn_words.specs.Reading.{verb_in};

use crate::line::Line;
use crate::words::{Verb, verb_of, words_ok};
use clap::error::ErrorKind;
use clap::{Arg, ArgMatches, Command, Error, value_parser};
use std::alloc::{AllocError, Global};

/// The command `explore`, with its options.
fn explore<'a>(alloc: Global) -> Result<Command<'a>, AllocError>
    ensures { IfOk result (λ command. app_of command ≡ explore_app) }
{
    let mapping = Arg::new(alloc, "mapping").long("mapping");
    let workers = Arg::new(alloc, "workers").long("workers");
    let make = Arg::new(alloc, "make")
        .long("make")
        .value_parser(value_parser!(u8));
    Command::new(alloc, "explore")
        .disable_help_flag(true)
        .arg(mapping)?
        .arg(workers)?
        .arg(make)
}

/// The command `make`, with its number.
fn make<'a>(alloc: Global) -> Result<Command<'a>, AllocError>
    ensures { IfOk result (λ command. app_of command ≡ make_app) }
{
    let number = Arg::new(alloc, "number").value_parser(value_parser!(u8));
    Command::new(alloc, "make")
        .disable_help_flag(true)
        .arg(number)
}

/// The number that `explore` is to make its network of, as clap takes it, if there is one. Its only error is want of memory.
fn explored_number<'a>(alloc: Global, words: &'a [&'a str]) -> Result<Option<u8>, Error>
    requires { (made : Option ℕ) × Explores made (words_of words.now) }
    ensures number { IfOk result (λ made. Explores made (words_of words.now)) }
    ensures memory { IfErr result (λ e. kind_of e ≡ ErrorKind.OutOfMemory) }
{
    let matches = explore(alloc)?.try_get_matches_from(words)?;
    Ok(matches.get_one::<u8>("make"))
}

/// The number that `make` is to make its network of, as clap takes it. Its only error is want of memory.
fn made_number<'a>(alloc: Global, words: &'a [&'a str]) -> Result<u8, Error>
    requires { (number : ℕ) × IsLine (Line.Make number) (words_of words.now) }
    ensures number { IfOk result (λ number. IsLine (Line.Make number) (words_of words.now)) }
    ensures memory { IfErr result (λ e. kind_of e ≡ ErrorKind.OutOfMemory) }
{
    let matches = make(alloc)?.try_get_matches_from(words)?;
    let number = matches.get_one::<u8>("number");
    Ok(number.unwrap())
}

/// What clap's only error is on a command line.
fn wanting(error: Error) -> AllocError
    requires { kind_of error ≡ ErrorKind.OutOfMemory }
{
    let _ = error;
    AllocError
}

/// What the words ask for, where they are a command line with this first word.
fn asked(alloc: Global, verb: Verb, words: &[&str]) -> Result<Line, AllocError>
    requires line { IsCommandLine (words_of words.now) }
    requires first { verb_in (words_of words.now) ≡ Some verb }
    ensures { IfOk result (λ line. IsLine line (words_of words.now)) }
{
    match verb {
        Verb::Explore => match explored_number(alloc, words) {
            Ok(Some(number)) => Ok(Line::ExploreMade(number)),
            Ok(None) => Ok(Line::Explore),
            Err(error) => Err(wanting(error)),
        },
        Verb::Replay => Ok(Line::Replay),
        Verb::Make => match made_number(alloc, words) {
            Ok(number) => Ok(Line::Make(number)),
            Err(error) => Err(wanting(error)),
        },
    }
}

/// What the words ask for. None exactly where they are no command line.
///
/// The only error is want of memory, and it comes for command lines alone.
pub fn line_of(alloc: Global, words: &[&str]) -> Result<Option<Line>, AllocError>
    ensures line { IfOk result (λ found. MatchOption found
        (IsCommandLine (words_of words.now) → ⊥)
        (λ line. IsLine line (words_of words.now))) }
    ensures memory { IfErr result (λ _. IsCommandLine (words_of words.now)) }
{
    if !words_ok(words) {
        return Ok(None);
    }
    match verb_of(words) {
        Some(verb) => Ok(Some(asked(alloc, verb, words)?)),
        None => Ok(None),
    }
}
